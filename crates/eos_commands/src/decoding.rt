//! What a listing has, by the words and the file's path.

ghost use Rattle.std.specs.Prelude.{◌≡◌, false, None};

use eos_segment::{ListingOptions, Reading};
use eos_words::Listing;

/// Which records of the file at this path are listed, and with what.
pub fn options_of(words: &Listing<'_>, path: &str) -> ListingOptions
    ensures from { result.from ≡ words.now.from }
    ensures to { result.to ≡ words.now.to }
    ensures headers { result.headers ≡ words.now.headers }
    ensures decode { words.now.decode ≡ false → words.now.reading ≡ None → result.decode ≡ None }
{
    ListingOptions {
        headers: words.headers,
        decode: reading_asked(words, path),
        from: words.from,
        to: words.to,
    }
}

fn reading_asked(words: &Listing<'_>, path: &str) -> Option<Reading>
    ensures { words.now.decode ≡ false → words.now.reading ≡ None → result ≡ None }
{
    match words.reading {
        Some(name) => Some(reading_named(name)),
        None => {
            if words.decode {
                Some(reading_of(path))
            } else {
                None
            }
        }
    }
}

/// The reading of one of the three names that the command line knows.
fn reading_named(name: &str) -> Reading {
    match name {
        "transactions" => Reading::Transactions,
        "offsets" => Reading::Offsets,
        _ => Reading::Outputs,
    }
}

/// As what the records of a file are read, by the topic in the name TOPIC-N of its folder.
fn reading_of(path: &str) -> Reading {
    match topic_of(folder_of(path)) {
        "__transaction_state" => Reading::Transactions,
        "__consumer_offsets" => Reading::Offsets,
        _ => Reading::Outputs,
    }
}

/// The name of the folder in which a file lies, as far as its path says it.
fn folder_of(path: &str) -> &str {
    match path.rsplit_once('/') {
        None => "",
        Some((above, _)) => match above.rsplit_once('/') {
            None => above,
            Some((_, name)) => name,
        },
    }
}

fn topic_of(folder: &str) -> &str {
    match folder.rsplit_once('-') {
        None => "",
        Some((topic, _)) => topic,
    }
}
