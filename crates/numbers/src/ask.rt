// Puts a question to the library: one function for every type, and one more for the signed ones.
use crate::answer::Answer;
use crate::question::{Call, NumberName, Question, Unread};
use atoi_simd::{
    Parse, ParseNeg, parse, parse_neg, parse_pos, parse_prefix, parse_prefix_neg, parse_prefix_pos,
};

pub fn answer_to(question: &Question<'_>) -> Result<Answer, Unread> {
    match question.number {
        NumberName::U8 => ask::<u8>(question),
        NumberName::U16 => ask::<u16>(question),
        NumberName::U32 => ask::<u32>(question),
        NumberName::U64 => ask::<u64>(question),
        NumberName::I8 => ask_signed::<i8>(question),
        NumberName::I16 => ask_signed::<i16>(question),
        NumberName::I32 => ask_signed::<i32>(question),
        NumberName::I64 => ask_signed::<i64>(question),
    }
}

fn ask<T: Parse + Into<i128>>(question: &Question<'_>) -> Result<Answer, Unread> {
    let text = question.text.as_slice();
    let zeroes = question.skips.zeroes;
    let plus = question.skips.plus;
    match question.call {
        Call::Parse => Ok(Answer::of_whole(parse::<T>(text, zeroes, plus), text)),
        Call::ParsePos => Ok(Answer::of_whole(parse_pos::<T>(text, zeroes), text)),
        Call::ParsePrefix => Ok(Answer::of_prefix(parse_prefix::<T>(text, zeroes, plus), text)),
        Call::ParsePrefixPos => Ok(Answer::of_prefix(parse_prefix_pos::<T>(text, zeroes), text)),
        Call::ParseNeg | Call::ParsePrefixNeg => Err(Unread::NoNegative),
    }
}

fn ask_signed<T: Parse + ParseNeg + Into<i128>>(question: &Question<'_>) -> Result<Answer, Unread> {
    let text = question.text.as_slice();
    let zeroes = question.skips.zeroes;
    match question.call {
        Call::ParseNeg => Ok(Answer::of_whole(parse_neg::<T>(text, zeroes), text)),
        Call::ParsePrefixNeg => Ok(Answer::of_prefix(parse_prefix_neg::<T>(text, zeroes), text)),
        _ => ask::<T>(question),
    }
}
