// What single words of a job's text spell.
ghost use Rattle.std.specs.Prelude.{◌≡◌, ◌∷◌, [], option_map, bytes_eq};
ghost use Rattle.std.specs.Option.{option_map_or};
ghost use Rattle.flow_defs.specs.Stages.{pieces};
ghost use Rattle.job_text.specs.JobFaults.{is_token, number_of, stage_kind_of, exchange_of, agg_of};
ghost use Rattle.job_text.specs.Words.{whole_number};

use flow_defs::{AggKind, Exchange, StageKind};

// The first word of a line, and what follows it behind a space.
pub(crate) fn cut_word(line: &[u8]) -> (&[u8], Option<&[u8]>)
    ensures { pieces 32 line.now ≡ result.0.now ∷ option_map_or (λ rest. pieces 32 rest.now) result.1 [] }
{
    match line.iter().position(|byte| *byte == b' ') {
        Some(space) => (&line[..space], Some(&line[space + 1..])),
        None => (line, None),
    }
}

// Whether the word is this text.
pub(crate) fn is(word: &[u8], text: &str) -> bool
    ensures { result ≡ bytes_eq word.now text.now }
{
    word == text.as_bytes()
}

// Whether the word is a token: from 1 to 255 bytes, each visible and of ASCII.
pub(crate) fn is_token(word: &[u8]) -> bool
    ensures { result ≡ is_token word.now }
{
    if word.is_empty() || word.len() > 255 {
        return false;
    }
    word.iter().all(|byte| matches!(*byte, 33..=126))
}

// The number from 1 to the most that the word spells in decimal.
pub(crate) fn number_of(word: &[u8], most: u32) -> Option<u32>
    ensures { result ≡ number_of most word.now }
{
    let number = long_number_of(word, most as u64)?;
    Some(number as u32)
}

// The same for numbers of up to 64 bits.
pub(crate) fn long_number_of(word: &[u8], most: u64) -> Option<u64>
    ensures { result ≡ number_of most word.now }
{
    let [b'1'..=b'9', ..] = word else {
        return None;
    };
    let Ok(text) = std::str::from_utf8(word) else {
        return None;
    };
    let Ok(number) = text.parse::<u64>() else {
        return None;
    };
    (number <= most).then_some(number)
}

// The number up to the most that the word spells in decimal.
pub(crate) fn whole_number(word: &[u8], most: u64) -> Option<u64>
    ensures { result ≡ whole_number most word.now }
{
    if is(word, "0") {
        Some(0)
    } else {
        long_number_of(word, most)
    }
}

// The kind of stages that the word spells, and its argument.
pub(crate) fn stage_kind_of(word: &[u8]) -> Option<(StageKind, &[u8])>
    ensures { option_map (λ kind. (kind.0, kind.1.now)) result ≡ stage_kind_of word.now }
{
    if is(word, "words") {
        Some((StageKind::Words, &[]))
    } else if is(word, "upper") {
        Some((StageKind::Upper, &[]))
    } else if let Some(prefix) = word.strip_prefix(b"keep:") {
        is_token(prefix).then_some((StageKind::Keep, prefix))
    } else {
        let field = word.strip_prefix(b"field:")?;
        number_of(field, 9999).map(|_| (StageKind::Field, field))
    }
}

// The exchange that the word spells.
pub(crate) fn exchange_of(word: &[u8]) -> Option<Exchange>
    ensures { result ≡ exchange_of word.now }
{
    if is(word, "hash") {
        Some(Exchange::Hash)
    } else if is(word, "rebalance") {
        Some(Exchange::Rebalance)
    } else if is(word, "forward") {
        Some(Exchange::Forward)
    } else {
        None
    }
}

// The kind of aggregates that the word spells.
pub(crate) fn agg_of(word: &[u8]) -> Option<AggKind>
    ensures { result ≡ agg_of word.now }
{
    if is(word, "count") {
        Some(AggKind::Count)
    } else if is(word, "sum") {
        Some(AggKind::Sum)
    } else if is(word, "max") {
        Some(AggKind::Max)
    } else {
        None
    }
}
