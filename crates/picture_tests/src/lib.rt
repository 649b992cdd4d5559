//! Tests of blocks, predictions, wavelets, slices, pictures, fields and raw video, in modules named by the crates that they test.
//! What is expected was worked out apart from the program.
#![tactic(auto)]

#[cfg(test)]
mod bounded_blocks_tests;
#[cfg(test)]
mod checks;
#[cfg(test)]
mod dc_prediction_tests;
#[cfg(test)]
mod field_weave_tests;
#[cfg(test)]
mod lifting_tests;
#[cfg(test)]
mod picture_codec_tests;
#[cfg(test)]
mod raw_video_tests;
#[cfg(test)]
mod slice_decoder_tests;
#[cfg(test)]
mod slice_encoder_tests;
