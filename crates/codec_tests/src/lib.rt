//! Tests of codes, headers, layouts, quantisers, schedules, and words and the settings that they ask for, in modules named
//! by the crates that they test. What is expected was worked out apart from the program.
#![tactic(auto)]

#[cfg(test)]
mod bit_codes_tests;
#[cfg(test)]
mod channel_schedule_tests;
#[cfg(test)]
mod parse_info_tests;
#[cfg(test)]
mod quant_factors_tests;
#[cfg(test)]
mod sequence_header_tests;
#[cfg(test)]
mod slice_geometry_tests;
#[cfg(test)]
mod told;
#[cfg(test)]
mod transform_params_tests;
#[cfg(test)]
mod vc2_words_tests;
