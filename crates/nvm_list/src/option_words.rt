ghost use Rattle.std.specs.Prelude.{◌≡◌};
ghost use Rattle.nvm_list.specs.Words.{words_in};
ghost use Rattle.nvm_list.specs.Options as spec;
ghost use Rattle.nvm_list.specs.Numbers as numbers;

use crate::expected::Expected;
use crate::line_cut::first_word;
use crate::number_word::number;
use nvm_record::Fuse;
use std::marker::Model;

/// The options of a command, each where it is given.
#[derive(Clone, Copy)]
pub struct Options {
    pub fuse: Option<Fuse>,
    pub cid: Option<u16>,
    pub nsid: Option<u32>,
    pub deallocate: bool,
}

impl Model for Options {
    ghost use Rattle.nvm_list.specs.Options as spec;

    ghost Value = { spec.Options };

    ghost view = { λ o. record { fuse = o.fuse; cid = o.cid; nsid = o.nsid; deallocate = o.deallocate } };

    ghost inverse = { λ o. record { fuse = o.fuse; cid = o.cid; nsid = o.nsid; deallocate = o.deallocate } };
}

/// The options that the words say after a command that is on ranges, or on blocks.
pub fn read_options(words: &[u8], ranges: bool) -> Result<Options, Expected>
    ensures { result ≡ spec.options ranges (words_in words.now) }
{
    let mut options = Options {
        fuse: None,
        cid: None,
        nsid: None,
        deallocate: false,
    };
    let mut rest = words;
    loop {
        let (word, after) = first_word(rest);
        if word.is_empty() {
            return Ok(options);
        }
        options = with_option(options, word, ranges)?;
        rest = after;
    }
}

/// The options with the one that a word says.
fn with_option(options: Options, word: &[u8], ranges: bool) -> Result<Options, Expected>
    ensures { result ≡ spec.with_option ranges options word.now }
{
    if word == b"first".as_slice() {
        return with_fuse(options, Fuse::First);
    }
    if word == b"second".as_slice() {
        return with_fuse(options, Fuse::Second);
    }
    if word == b"reserved".as_slice() {
        return with_fuse(options, Fuse::Reserved);
    }
    if let Some(cid) = word.strip_prefix(b"cid=") {
        return with_cid(options, cid);
    }
    if let Some(nsid) = word.strip_prefix(b"nsid=") {
        return with_nsid(options, nsid);
    }
    if ranges {
        return with_range_option(options, word);
    }
    Err(Expected::OptionName)
}

/// The options with one that only a command on ranges may have.
fn with_range_option(options: Options, word: &[u8]) -> Result<Options, Expected>
    ensures { result ≡ spec.with_range_option options word.now }
{
    if word != b"deallocate".as_slice() {
        return Err(Expected::RangeOptionName);
    }
    if options.deallocate {
        return Err(Expected::OptionOnce);
    }
    Ok(Options {
        deallocate: true,
        ..options
    })
}

/// The options with a place in a fused operation.
fn with_fuse(options: Options, fuse: Fuse) -> Result<Options, Expected>
    ensures { result ≡ spec.with_fuse options fuse }
{
    if options.fuse.is_some() {
        return Err(Expected::OptionOnce);
    }
    Ok(Options {
        fuse: Some(fuse),
        ..options
    })
}

/// The options with the command identifier that a word says.
fn with_cid(options: Options, word: &[u8]) -> Result<Options, Expected>
    ensures { result ≡ spec.with_cid options (numbers.number 65535 word.now) }
{
    if options.cid.is_some() {
        return Err(Expected::OptionOnce);
    }
    let Some(cid) = number(word, 65_535) else {
        return Err(Expected::Cid);
    };
    Ok(Options {
        cid: Some(cid as u16),
        ..options
    })
}

/// The options with the namespace identifier that a word says.
fn with_nsid(options: Options, word: &[u8]) -> Result<Options, Expected>
    ensures { result ≡ spec.with_nsid options (numbers.number 4294967295 word.now) }
{
    if options.nsid.is_some() {
        return Err(Expected::OptionOnce);
    }
    let Some(nsid) = number(word, 4_294_967_295) else {
        return Err(Expected::Nsid);
    };
    Ok(Options {
        nsid: Some(nsid as u32),
        ..options
    })
}
