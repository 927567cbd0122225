//! What a file that isn't what was wanted looks like.
use nvm_evidence::is_evidence;
use nvm_list::{first_word, without_comment};

/// What a file's bytes look like, by their front.
#[derive(Clone, Copy)]
pub enum Content {
    /// There are none.
    Empty,
    /// A host file, `NVQ1`.
    HostFile,
    /// A record of any version, `NVR`.
    Record,
    /// A trace of any version, `NVT`.
    Trace,
    /// An order, `NVE1`, or evidence of a kind that isn't known.
    Order,
    /// A contradiction, `NVE1` and a byte 2.
    Contradiction,
    /// The text of a trace, by its first word.
    TraceText,
    /// A command list, by its first word.
    List,
    /// Other text.
    Text,
    /// None of these.
    Unknown,
}

/// So many bytes are looked at.
const FRONT: usize = 4_096;

/// How many bytes a name has, which a file begins with.
const NAME: usize = 4;

impl Content {
    /// What the bytes of a file look like.
    pub fn of(bytes: &[u8]) -> Content {
        let front = &bytes[..bytes.len().min(FRONT)];
        if front.is_empty() {
            Content::Empty
        } else if front.starts_with(b"NVQ1") {
            Content::HostFile
        } else if front.starts_with(b"NVR") {
            Content::Record
        } else if front.starts_with(b"NVT") {
            Content::Trace
        } else if front.starts_with(b"NVE1\x02") {
            Content::Contradiction
        } else if is_evidence(front) {
            Content::Order
        } else if front.len() >= NAME && front.iter().all(|byte| is_of_text(*byte)) {
            Content::of_text(first_word_of(front))
        } else {
            Content::Unknown
        }
    }

    /// What a text with this first word looks like.
    fn of_text(word: &[u8]) -> Content {
        match word {
            b"trace" => Content::TraceText,
            b"write" | b"read" | b"compare" | b"zeroes" | b"uncorrectable" | b"dataset" => {
                Content::List
            }
            _ if word.starts_with(b"op-") => Content::List,
            _ => Content::Text,
        }
    }
}

/// The first word of a text that is in no comment, which is empty where there is none.
fn first_word_of(text: &[u8]) -> &[u8] {
    for line in text.split(|byte| *byte == b'\n') {
        let (word, _) = first_word(without_comment(line));
        if !word.is_empty() {
            return word;
        }
    }
    b""
}

/// Whether a byte can be in text: no control character but tab, line feed and carriage return.
fn is_of_text(byte: u8) -> bool {
    matches!(byte, b'\t' | b'\n' | b'\r') || (byte >= b' ' && byte != 127)
}
