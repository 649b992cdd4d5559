//! The settings of a written stream, and the rules on them.

ghost use Rattle.std.specs.Prelude.{◌≡◌, ◌≤◌, ◌+◌, ◌*◌, ◌^◌, true, length, Some, None, MatchResult};
ghost use Rattle.field_rows.specs.Rows.{first_broken};
ghost use Rattle.transform_params.specs.Views as views;
ghost use Rattle.vc2_words.specs.declared.keys.Key.TheVariants as of_key;
ghost use Rattle.vc2_words.specs.Operands.{value_of};
ghost use Rattle.vc2_words.specs.Plain.{IsPlain};
ghost use Rattle.vc2_words.specs.Forms.{greatest_number};
ghost use Rattle.vc2_words.specs.Fits.{bound_of};
ghost use Rattle.vc2_words.specs.Shown.{shown};
ghost use Rattle.vc2_words.specs.Settings as asked;
ghost use Rattle.vc2_words.specs.Settings.{given_number, parts_of, slicing_of, params_of, broken_rule, trial_number_rules, entries_of, asked_of};

use crate::keys::{Key, Rule};
use crate::operands::Given;
use channel_schedule::Rate;
use lifting::Wavelet;
use quant_factors::Matrix;
use sequence_header::{
    AspectField, ColourField, HeaderParts, RateField, SequenceHeader, SignalField, SignalRange,
};
use slice_geometry::Layout;
use transform_params::TransformParams;

/// The settings of a stream.
#[derive(Clone, Copy, Debug, PartialEq, Eq)]
pub struct Settings {
    pub header: SequenceHeader,
    pub params: TransformParams,
    /// The number of the first picture.
    pub first: u32,
    pub rate: Rate,
    /// A new sequence begins behind every so many pictures.
    pub group: Option<u32>,
    /// The slots behind each picture in which no slice is taken.
    pub idle: u32,
}

/// Raw fields, by a header of them: its size is the frame's.
#[derive(Clone, Copy, Debug, PartialEq, Eq)]
pub struct FieldVideo {
    pub header: SequenceHeader,
    /// The first field has line 0 of the frame.
    pub top: bool,
}

/// What is asked of a cut: the frames of a stream from one number on, and before another, and a schedule of the new stream.
#[derive(Clone, Copy, Debug, PartialEq, Eq)]
pub struct CutSettings {
    pub from: u32,
    /// The first frame behind them.
    pub to: u32,
    pub rate: Rate,
    /// The slots behind each picture in which no slice is taken.
    pub idle: u32,
}

/// The number of this place in a key's value, or 0.
fn number(given: &Given, key: Key, i: usize) -> u32
    requires { bound_of key ≤ greatest_number }
    ensures { result ≡ given_number given.now.values key i }
{
    match given.get(key) {
        None => 0,
        Some(numbers) => match u32::try_from(numbers.get(i)) {
            Ok(number) => number,
            Err(_) => unreachable!(),
        },
    }
}

fn rate_field(num: u32, den: u32) -> RateField
    ensures { result ≡ asked.rate_field num den }
{
    match (num, den) {
        (24000, 1001) => RateField::Index(1),
        (24, 1) => RateField::Index(2),
        (25, 1) => RateField::Index(3),
        (30000, 1001) => RateField::Index(4),
        (30, 1) => RateField::Index(5),
        (50, 1) => RateField::Index(6),
        (60000, 1001) => RateField::Index(7),
        (60, 1) => RateField::Index(8),
        _ => RateField::Pair(num, den),
    }
}

fn signal_field(given: &Given) -> SignalField
    ensures { result ≡ asked.signal_of (value_of given.now.values of_key.Signal) }
{
    match given.get(Key::Signal) {
        None => SignalField::Index(1),
        Some(numbers) => {
            if numbers.len() == 1 {
                SignalField::Index(number(given, Key::Signal, 0))
            } else {
                SignalField::Custom(SignalRange {
                    luma_offset: number(given, Key::Signal, 0),
                    luma_excursion: number(given, Key::Signal, 1),
                    colour_offset: number(given, Key::Signal, 2),
                    colour_excursion: number(given, Key::Signal, 3),
                })
            }
        }
    }
}

/// The parts of the header that these operands ask for.
fn parts_of(given: &Given) -> HeaderParts
    ensures { result ≡ parts_of given.now.values }
{
    HeaderParts {
        major: 1,
        minor: 0,
        level: 0,
        width: number(given, Key::Size, 0),
        height: number(given, Key::Size, 1),
        sampling: number(given, Key::Sampling, 0),
        scan: match given.get(Key::Scan) {
            None => None,
            Some(_) => Some(number(given, Key::Scan, 0)),
        },
        rate: rate_field(number(given, Key::Fps, 0), number(given, Key::Fps, 1)),
        aspect: AspectField::Default,
        clean: None,
        signal: signal_field(given),
        colour: ColourField::Default,
        coding: number(given, Key::Fields, 0),
    }
}

fn is_size(parts: &HeaderParts) -> bool
    ensures { result ≡ asked.is_size parts.now }
{
    1 <= parts.width
        && parts.width <= 8192
        && 1 <= parts.height
        && parts.height <= 8192
        && parts.width * parts.height <= 1 << 24
}

fn is_divided(parts: &HeaderParts) -> bool
    ensures { result ≡ asked.is_divided parts.now }
{
    (parts.sampling == 0 || parts.width % 2 == 0)
        && (parts.sampling != 2 || parts.height % 2 == 0)
        && (parts.coding == 0
            || parts.height % 2 == 0 && (parts.sampling != 2 || parts.height % 4 == 0))
}

fn is_signal(parts: &HeaderParts) -> bool
    ensures { result ≡ asked.is_signal parts.now.signal }
{
    match parts.signal {
        SignalField::Index(_) => true,
        SignalField::Custom(range) => {
            1 <= range.luma_excursion
                && range.luma_excursion <= 65535
                && 1 <= range.colour_excursion
                && range.colour_excursion <= 65535
        }
    }
}

/// The header of these parts, which break no rule.
fn header_of(parts: HeaderParts) -> SequenceHeader
    requires plain { IsPlain parts }
    requires size { asked.is_size parts ≡ true }
    requires divided { asked.is_divided parts ≡ true }
    requires signal { asked.is_signal parts.signal ≡ true }
    ensures { result ≡ parts }
{
    match SequenceHeader::check(parts) {
        Ok(header) => header,
        Err(_) => unreachable!(),
    }
}

/// The header of the fields that these operands ask for. It has a rate, since each has one, which is nothing of raw video's.
fn field_parts(given: &Given) -> HeaderParts
    ensures { result ≡ asked.field_parts given.now.values }
{
    let mut parts = parts_of(given);
    parts.rate = RateField::Index(1);
    parts.coding = 1;
    parts
}

/// The first rule on fields that is broken.
fn broken_field(parts: &HeaderParts) -> Option<Rule>
    ensures { result ≡ first_broken (asked.field_rules parts.now) }
{
    if !is_size(parts) {
        Some(Rule::Size)
    } else if !is_divided(parts) {
        Some(Rule::Divide)
    } else if !is_signal(parts) {
        Some(Rule::Signal)
    } else {
        None
    }
}

/// Whether the first field has line 0 of the frame.
pub fn is_top(given: &Given) -> bool
    ensures { result ≡ asked.is_top given.now.values }
{
    number(given, Key::Order, 0) == 1
}

/// The fields of these operands, or the first rule that they break.
pub fn video_of(given: &Given) -> Result<FieldVideo, Rule>
    requires { IsPlain (asked.field_parts given.now.values) }
    ensures { MatchResult result (λ video. (first_broken
        (asked.field_rules (asked.field_parts given.now.values)) ≡ None)
        × (video ≡ asked.video_of given.now.values))
        (λ rule. first_broken (asked.field_rules (asked.field_parts given.now.values))
        ≡ Some rule) }
{
    let parts = field_parts(given);
    match broken_field(&parts) {
        Some(rule) => Err(rule),
        None => Ok(FieldVideo {
            header: header_of(parts),
            top: is_top(given),
        }),
    }
}

fn are_slices(given: &Given) -> bool
    ensures { result ≡ asked.are_slices (slicing_of given.now.values) }
{
    let x = number(given, Key::Slices, 0);
    let y = number(given, Key::Slices, 1);
    1 <= x && x <= 8192 && 1 <= y && y <= 8192 && x * y <= 1 << 20
}

fn is_share(given: &Given) -> bool
    requires { asked.are_slices (slicing_of given.now.values) ≡ true }
    ensures { result ≡ asked.is_share (slicing_of given.now.values) }
{
    let slices = number(given, Key::Slices, 0) * number(given, Key::Slices, 1);
    let a = number(given, Key::Bytes, 0);
    let b = number(given, Key::Bytes, 1);
    1 <= b && b <= a && u64::from(slices) * u64::from(a) / u64::from(b) <= 1 << 28
}

fn layout_of(given: &Given) -> Layout
    requires deep { (slicing_of given.now.values).depth ≤ 4 }
    requires slices { asked.are_slices (slicing_of given.now.values) ≡ true }
    requires share { asked.is_share (slicing_of given.now.values) ≡ true }
    ensures { result ≡ slicing_of given.now.values }
{
    let layout = Layout::check(
        number(given, Key::Depth, 0),
        number(given, Key::Slices, 0),
        number(given, Key::Slices, 1),
        number(given, Key::Bytes, 0),
        number(given, Key::Bytes, 1),
    );
    match layout {
        Ok(layout) => layout,
        Err(_) => unreachable!(),
    }
}

/// How many entries the matrix has.
fn entry_count(given: &Given) -> usize
    ensures value { result ≡ length (entries_of (value_of given.now.values of_key.Matrix)) }
    ensures most { result ≤ 13 }
{
    match given.get(Key::Matrix) {
        None => 0,
        Some(numbers) => numbers.len(),
    }
}

/// The matrix of a transform of this depth.
fn matrix_of(given: &Given, depth: u32) -> Matrix
    requires deep { depth ≤ 4 }
    requires count { length (entries_of (value_of given.now.values of_key.Matrix)) ≡ 1 + 3 * depth }
    ensures { result ≡ record {
      depth = depth;
      entries = entries_of (value_of given.now.values of_key.Matrix);
    } }
{
    let count = entry_count(given);
    let mut entries = [0; 13];
    for i in 0..count {
        entries[i] = number(given, Key::Matrix, i);
    }
    Matrix::new(depth, &entries[..count])
}

fn wavelet_of(given: &Given) -> Wavelet
    ensures { result ≡ asked.wavelet_of (given_number given.now.values of_key.Wavelet 0) }
{
    match number(given, Key::Wavelet, 0) {
        0 => Wavelet::LeGall,
        1 => Wavelet::HaarFlat,
        _ => Wavelet::HaarShift,
    }
}

/// The idle slots behind each picture.
pub fn idle_of(given: &Given) -> u32
    ensures value { result ≡ given_number given.now.values of_key.Idle 0 }
    ensures few { result ≤ 2 ^ 20 }
{
    number(given, Key::Idle, 0)
}

/// The rate that was given, or a picture unit's bytes in as many slots as it has slices and idle slots behind them.
fn rate_of(given: &Given, params: &TransformParams, idle: u32) -> Rate
    requires { idle ≤ 2 ^ 20 }
    ensures { result ≡ asked.rate_of (views.params_of params.now) idle
        (value_of given.now.values of_key.Rate) }
{
    match given_rate(given) {
        Some(rate) => rate,
        None => Rate {
            num: params.unit_len(),
            den: params.layout.count() + idle,
        },
    }
}

fn is_even_with(coding: u32, n: u32) -> bool
    ensures { result ≡ asked.is_even_with coding n }
{
    coding != 1 || n % 2 == 0
}

fn are_paired(coding: u32, number: Option<u32>) -> bool
    ensures { result ≡ asked.are_paired coding number }
{
    match number {
        None => true,
        Some(n) => is_even_with(coding, n),
    }
}

/// The pictures of a sequence, where they are given.
fn group_of(given: &Given) -> Option<u32>
    ensures { result ≡ asked.first_given (value_of given.now.values of_key.Group) }
{
    match given.get(Key::Group) {
        None => None,
        Some(_) => Some(number(given, Key::Group, 0)),
    }
}

/// The first rule on numbers that is broken.
fn broken_number(
    given: &Given,
    parts: &HeaderParts,
    first: u32,
    group: Option<u32>,
    pictures: Option<u32>,
) -> Option<Rule>
    ensures { result ≡ first_broken (trial_number_rules parts.now
        (params_of given.now.values) first group pictures) }
{
    let depth = number(given, Key::Depth, 0);
    if !is_size(parts) {
        Some(Rule::Size)
    } else if !is_divided(parts) {
        Some(Rule::Divide)
    } else if !is_signal(parts) {
        Some(Rule::Signal)
    } else if depth > 4 {
        Some(Rule::Depth)
    } else if !are_slices(given) {
        Some(Rule::Slices)
    } else if !is_share(given) {
        Some(Rule::Share)
    } else if entry_count(given) != (1 + 3 * depth) as usize {
        Some(Rule::MatrixCount)
    } else if !is_even_with(parts.coding, first) {
        Some(Rule::FirstOdd)
    } else if !are_paired(parts.coding, pictures) {
        Some(Rule::FieldCount)
    } else if !are_paired(parts.coding, group) {
        Some(Rule::GroupOdd)
    } else {
        None
    }
}

/// The parameters of these operands, which break no rule.
fn params_of(given: &Given) -> TransformParams
    requires deep { (slicing_of given.now.values).depth ≤ 4 }
    requires slices { asked.are_slices (slicing_of given.now.values) ≡ true }
    requires share { asked.is_share (slicing_of given.now.values) ≡ true }
    requires count { length (entries_of (value_of given.now.values of_key.Matrix))
        ≡ 1 + 3 * (slicing_of given.now.values).depth }
    ensures { views.params_of result ≡ params_of given.now.values }
{
    let layout = layout_of(given);
    let matrix = matrix_of(given, layout.depth());
    TransformParams {
        wavelet: wavelet_of(given),
        layout,
        matrix,
    }
}

/// How many sequences begin behind the first one.
pub fn later_sequences(group: Option<u32>, pictures: u32) -> u32
    ensures { result ≡ asked.later_sequences group pictures }
{
    match group {
        None | Some(0) => 0,
        Some(group) => pictures.saturating_sub(1) / group,
    }
}

/// Whether a trial's stream isn't too long.
fn is_short(
    header: &SequenceHeader,
    params: &TransformParams,
    group: Option<u32>,
    pictures: Option<u32>,
) -> bool
    ensures { result ≡ asked.is_short header.now (views.params_of params.now) group pictures }
{
    match pictures {
        None => true,
        Some(pictures) => {
            // Pictures and the bytes of a unit are numbers of 32 bits, so the sum may take more than 64.
            let sequences = 1 + u128::from(later_sequences(group, pictures));
            let ends = sequences * (13 + header.byte_len() as u128 + 13);
            ends + u128::from(pictures) * u128::from(params.unit_len()) <= 1 << 28
        }
    }
}

/// The settings of these operands, or the first rule that they break; `pictures` is the number of a trial's pictures.
pub fn settings_of(given: &Given, pictures: Option<u32>) -> Result<Settings, Rule>
    requires { IsPlain (parts_of given.now.values) }
    ensures { MatchResult result (λ s. (broken_rule given.now.values pictures ≡ None)
        × (shown s ≡ asked_of given.now.values))
        (λ rule. broken_rule given.now.values pictures ≡ Some rule) }
{
    let parts = parts_of(given);
    let first = number(given, Key::First, 0);
    let group = group_of(given);
    match broken_number(given, &parts, first, group, pictures) {
        Some(rule) => Err(rule),
        None => {
            let header = header_of(parts);
            let params = params_of(given);
            if is_short(&header, &params, group, pictures) {
                let idle = idle_of(given);
                let rate = rate_of(given, &params, idle);
                Ok(Settings {
                    header,
                    params,
                    first,
                    rate,
                    group,
                    idle,
                })
            } else {
                Err(Rule::TrialSize)
            }
        }
    }
}

/// The one number of a key, or 0.
pub fn single(given: &Given, key: Key) -> u32
    requires { bound_of key ≤ greatest_number }
    ensures { result ≡ given_number given.now.values key 0 }
{
    number(given, key, 0)
}

/// The rate that was given.
pub fn given_rate(given: &Given) -> Option<Rate>
    ensures { result ≡ asked.rate_given (value_of given.now.values of_key.Rate) }
{
    match given.get(Key::Rate) {
        None => None,
        Some(_) => Some(Rate {
            num: number(given, Key::Rate, 0),
            den: number(given, Key::Rate, 1),
        }),
    }
}

/// The buffer that was given.
pub fn given_buffer(given: &Given) -> Option<u64>
    ensures { result ≡ asked.buffer_given (value_of given.now.values of_key.Buffer) }
{
    match given.get(Key::Buffer) {
        None => None,
        Some(numbers) => match u64::try_from(numbers.get(0)) {
            Ok(size) => Some(size),
            Err(_) => unreachable!(),
        },
    }
}

/// The cut of these operands, or the rule that they break.
pub fn cut_of(given: &Given) -> Result<CutSettings, Rule>
    ensures { MatchResult result (λ cut. (first_broken
        (asked.cut_rules (asked.cut_of given.now.values)) ≡ None)
        × (cut ≡ asked.cut_of given.now.values))
        (λ rule. first_broken (asked.cut_rules (asked.cut_of given.now.values)) ≡ Some rule) }
{
    let cut = CutSettings {
        from: single(given, Key::From),
        to: single(given, Key::To),
        rate: Rate {
            num: number(given, Key::Rate, 0),
            den: number(given, Key::Rate, 1),
        },
        idle: idle_of(given),
    };
    if cut.from < cut.to {
        Ok(cut)
    } else {
        Err(Rule::CutOrder)
    }
}
