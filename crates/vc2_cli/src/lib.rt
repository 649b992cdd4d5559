//! The program's top call: words, a source and two sinks in, a status out.
#![tactic(auto)]

mod chain;
mod check;
mod comparing;
mod cut;
mod decode;
mod encode;
mod frames;
mod header;
mod header_texts;
mod laws;
mod program;
mod proxy;
mod scheduled;
mod status;
mod stream_sink;
mod texts;
mod top;
mod trial;
mod weave;
mod words;

pub use laws::{
    cuts_have_replies, fields_have_replies, frames_have_replies, headers_have_replies,
    lines_are_read, one_answer, one_check_answer, one_cut_answer, one_decode_answer,
    one_encode_answer, one_frames_answer, one_header_answer, one_proxy_answer, one_schedule_answer,
    one_split_answer, one_weave_answer, pictures_go_there_and_back, proxies_have_replies,
    raw_video_has_replies, schedules_have_replies, streams_have_replies, words_are_encoded,
};
pub use program::run_to_exit;
pub use sequence_header::FieldName;
pub use status::{Ending, Note, ScheduleFault, Status, exit_code};
pub use stream_units::{Reason, Refusal};
pub use top::run;
pub use vc2_words::{Key, Rule, WordFault};
