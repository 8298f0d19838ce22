//! The options of a client's line, judged.

ghost use Rattle.std.specs.Prelude.{◌≡◌, ◌≤◌, [], IfSome, option_map};
ghost use Rattle.std.specs.List.{find};
ghost use Rattle.std.specs.Str.{bytes_eq};
ghost use Rattle.ostore_job_text.specs.Drafted.{option_limit, option_number, is_repeated, is_good_option, bad_option, number_given};

use crate::said::OptionSaid;
use ostore_text_words::read_count;

/// The most tries of a client.
const MOST_TRIES: u64 = 1_000;

/// The most pages of a client's cache.
const MOST_CACHE: u64 = 16_384;

/// The most frames of a client's address space.
const MOST_FRAMES: u64 = 65_536;

/// The greatest number of an option. None where there is no such option.
#[tactic(auto, unfolding(crate::specs::Drafted::option_limit))]
fn option_limit(name: &[u8]) -> Option<u64>
    ensures limit { result ≡ option_limit name.now }
    ensures within { IfSome result (λ most. most ≤ 65536) }
{
    if name == b"tries".as_slice() {
        return Some(MOST_TRIES);
    }
    if name == b"cache".as_slice() {
        return Some(MOST_CACHE);
    }
    if name == b"frames".as_slice() {
        return Some(MOST_FRAMES);
    }
    None
}

/// The number of an option. None where it is unknown, or its number is out of its limits.
fn option_number(option: &OptionSaid) -> Option<u32>
    ensures { result ≡ option_number option.now }
{
    let most = option_limit(option.name.bytes())?;
    match read_count(option.number.bytes(), 1, most) {
        Some(number) => Some(number as u32),
        None => None,
    }
}

/// Whether the option was given before.
fn is_repeated(earlier: &[OptionSaid], option: &OptionSaid) -> bool
    ensures { result ≡ is_repeated earlier.now option.now }
{
    let name = option.name.bytes();
    earlier.iter().any(|other| other.name.bytes() == name)
}

/// Whether the option may stand behind these.
fn is_good(earlier: &[OptionSaid], option: &OptionSaid) -> bool
    ensures { result ≡ is_good_option earlier.now option.now }
{
    !is_repeated(earlier, option) && option_number(option).is_some()
}

/// Where the first option stands that is unknown, was given before, or is out of its limits.
pub(super) fn bad_option(options: &[OptionSaid]) -> Option<usize>
    ensures { result ≡ bad_option [] options.now }
{
    for (i, option) in options.iter().enumerate() {
        if !is_good(&options[..i], option) {
            return Some(option.at);
        }
    }
    None
}

/// The first option of that name.
fn named<'a>(options: &'a [OptionSaid], name: &[u8]) -> Option<&'a OptionSaid>
    ensures { option_map (λ option. option.now) result
        ≡ find (λ option. bytes_eq option.name name.now) options.now }
{
    options.iter().find(|option| option.name.bytes() == name)
}

/// The number that is given for an option, or its default.
pub(super) fn number_given(options: &[OptionSaid], name: &[u8], default: u32) -> u32
    ensures { result ≡ number_given options.now name.now default }
{
    let Some(option) = named(options, name) else {
        return default;
    };
    option_number(option).unwrap_or(default)
}
