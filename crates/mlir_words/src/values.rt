//! The values of single options.

ghost use Rattle.std.specs.Prelude.{◌≡◌, IfSome, option_map};
ghost use Rattle.mlir_words.specs.Request.{IsInRange, input_source, module_source, nonempty, number_of};
ghost use Rattle.mlir_words.specs.Request.{source_named, source_shape, worker_count};

use crate::request::Source;

/// A name that isn't empty.
pub(crate) fn name_in<'a>(text: &'a str) -> Option<&'a str>
    ensures { option_map (λ name. name.now) result ≡ nonempty text.entry.now }
{
    if text.is_empty() { None } else { Some(text) }
}

/// Decimal digits without a leading 0, for a number from 1 to 64.
pub(crate) fn number_in(text: &str) -> Option<u8>
    ensures value { result ≡ number_of text.now }
    ensures range { IfSome result IsInRange }
{
    let [b'1'..=b'9', ..] = text.as_bytes() else {
        return None;
    };
    let Ok(number) = text.parse::<u8>() else {
        return None;
    };
    if number <= 64 { Some(number) } else { None }
}

/// The source that a word names: `-` is standard input.
pub(crate) fn source_in<'a>(text: &'a str) -> Option<Source<'a>>
    ensures { option_map source_shape result ≡ source_named text.entry.now }
{
    match text {
        "" => None,
        "-" => Some(Source::StandardInput),
        _ => Some(Source::File(text)),
    }
}

/// The module's source, which is standard input where no file is given.
pub(crate) fn module_in<'a>(file: Option<&'a str>) -> Option<Source<'a>>
    ensures { option_map source_shape result ≡ module_source (option_map (λ text. text.now) file.entry) }
{
    match file {
        None => Some(Source::StandardInput),
        Some(text) => source_in(text),
    }
}

/// The input's source, where one is given; it isn't read where the module is read from.
pub(crate) fn input_in<'a>(origin: Source<'a>, input: Option<&'a str>) -> Option<Option<Source<'a>>>
    ensures { option_map (option_map source_shape) result
        ≡ input_source (source_shape origin.entry) (option_map (λ text. text.now) input.entry) }
{
    let Some(text) = input else {
        return Some(None);
    };
    match (origin, source_in(text)?) {
        (Source::StandardInput, Source::StandardInput) => None,
        (_, source) => Some(Some(source)),
    }
}

/// How many workers run, where one is the default.
pub(crate) fn workers_in(workers: Option<&str>) -> Option<u8>
    ensures value { result ≡ worker_count (option_map (λ text. text.now) workers.entry) }
    ensures range { IfSome result IsInRange }
{
    match workers {
        None => Some(1),
        Some(text) => number_in(text),
    }
}
