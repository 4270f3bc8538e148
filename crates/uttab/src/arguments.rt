//! The words of the command line.

ghost use Rattle.std.specs.Prelude.{◌≡◌, [], string_bytes, IsUtf8};

use std::alloc::{AllocError, Global};
use std::env::FillError;
use std::rt::Env;

/// Why the words of the command line can't be had.
#[derive(Clone, Copy, Debug, PartialEq, Eq)]
pub enum NoArguments {
    /// The system doesn't give them, not even the program's name.
    Absent,
    /// Memory is wanting.
    Memory,
}

impl NoArguments {
    /// The status that the program ends with.
    pub fn status(self) -> u8
        ensures absent { self ≡ NoArguments.Absent → result ≡ 9 }
        ensures memory { self ≡ NoArguments.Memory → result ≡ 7 }
    {
        match self {
            NoArguments::Absent => 9,
            NoArguments::Memory => 7,
        }
    }
}

impl From<AllocError> for NoArguments {
    fn from(_: AllocError) -> NoArguments {
        NoArguments::Memory
    }
}

// The bytes of the argument of a number, if there is one.
fn argument_bytes<R: Env>(
    rt: &R,
    alloc: Global,
    number: usize,
) -> Result<Option<Vec<u8>>, AllocError> {
    let mut bytes = vec![in alloc; 0u8; 256]?;
    for _ in 0..usize::BITS {
        match rt.arg(number, &mut bytes) {
            Ok(length) => {
                bytes.truncate(length);
                return Ok(Some(bytes));
            }
            Err(FillError::NotPresent) => return Ok(None),
            Err(FillError::TooLong) => bytes.resize(bytes.len().saturating_mul(2), 0)?,
        }
    }
    Err(AllocError)
}

// The word of these bytes. Bytes that aren't UTF-8 are an empty word.
fn word_of(alloc: Global, bytes: Vec<u8>) -> String
    ensures text { IsUtf8 bytes.items → string_bytes result ≡ bytes.items }
    ensures other { ¬ IsUtf8 bytes.items → string_bytes result ≡ [] }
{
    match String::from_utf8(bytes) {
        Ok(word) => word,
        Err(_) => String::new(alloc),
    }
}

/// The words of the command line, without the program's name. One that isn't UTF-8 is an empty
/// word.
pub fn arguments<R: Env>(rt: &R, alloc: Global) -> Result<Vec<String>, NoArguments> {
    if argument_bytes(rt, alloc, 0)?.is_none() {
        return Err(NoArguments::Absent);
    }
    let mut words = Vec::new(alloc);
    for number in 1..usize::MAX {
        match argument_bytes(rt, alloc, number)? {
            Some(bytes) => words.push(word_of(alloc, bytes)).map_err(AllocError::from)?,
            None => break,
        }
    }
    Ok(words)
}

#[cfg(test)]
mod tests {
    use super::*;

    // A command line that is given, the program's name first.
    #[derive(Drop)]
    struct Given {
        words: &'static [&'static [u8]],
    }

    impl Env for Given {
        fn arg(&self, number: usize, buf: &mut [u8]) -> Result<usize, FillError> {
            let Some(word) = self.words.get(number) else {
                return Err(FillError::NotPresent);
            };
            if word.len() > buf.len() {
                return Err(FillError::TooLong);
            }
            buf[..word.len()].copy_from_slice(word);
            Ok(word.len())
        }

        fn var(&self, _name: &str, _buf: &mut [u8]) -> Result<usize, FillError> {
            Err(FillError::NotPresent)
        }

        fn var_at(&self, _number: usize, _buf: &mut [u8]) -> Result<usize, FillError> {
            Err(FillError::NotPresent)
        }
    }

    #[test]
    fn takes_words_of_any_length(rt: HostRuntime) {
        let words: &'static [&'static [u8]] = &[
            b"uttab",
            b"run",
            &[b'a'; 256],
            &[b'b'; 257],
            &[b'c'; 600],
            b"\xc3\xa9",
            b"a\xff",
            b"last",
        ];
        let wanted: &'static [&'static [u8]] = &[
            b"run",
            &[b'a'; 256],
            &[b'b'; 257],
            &[b'c'; 600],
            b"\xc3\xa9",
            b"",
            b"last",
        ];
        let taken = arguments(&Given { words }, rt.alloc());
        assert!(rt;
            matches!(&taken, Ok(taken) if taken.iter().map(|word| word.as_bytes()).eq(wanted.iter().copied()))
        );
    }

    #[test]
    fn tells_absent_arguments_from_none(rt: HostRuntime) {
        let absent = arguments(&Given { words: &[] }, rt.alloc());
        assert!(rt; matches!(absent, Err(NoArguments::Absent)));
        let none = arguments(&Given { words: &[b"uttab"] }, rt.alloc());
        assert!(rt; matches!(&none, Ok(words) if words.is_empty()));
    }
}
