//! What happened where a run ended with a status that its output doesn't explain.

ghost use Rattle.std.specs.Prelude.{◌≡◌, option_and_then};
ghost use Rattle.uttab.specs.Reasons.{line_of, reason_text};

use std::alloc::{AllocError, Global};
use std::fmt;
use std::io::Error;

/// What happened, in words, where a run ended with a status that its output doesn't explain.
#[derive(Clone, Copy)]
pub struct Reason<'a> {
    status: u8,
    file: &'a str,
    cause: &'a str,
}

impl<'a> Reason<'a> {
    /// The reason for this status, if the output doesn't say it. `file` is the name that was asked
    /// for last, and `cause` what is said of the call that failed.
    pub fn of(status: u8, file: &'a str, cause: &'a str) -> Option<Reason<'a>>
        ensures { option_and_then line_of result
            ≡ reason_text status file.entry.now cause.entry.now }
    {
        match status {
            5..=9 => Some(Reason {
                status,
                file,
                cause,
            }),
            _ => None,
        }
    }
}

impl fmt::Display for Reason<'_> {
    ghost output = { λ r. line_of r };

    fn fmt<W: fmt::Write>(&self, f: &mut fmt::Formatter<W>) -> fmt::Result {
        let file = self.file;
        let cause = self.cause;
        match self.status {
            5 => write!(f, "uttab: {file}: {cause}"),
            6 => write!(f, "uttab: standard output: {cause}"),
            7 => f.write_str("uttab: out of memory"),
            8 => write!(f, "uttab: {file}: more than 134217728 bytes"),
            9 => f.write_str("uttab: the system gives no arguments"),
            _ => Ok(()),
        }
    }
}

/// A name as it is shown: an empty one, also of an argument that isn't UTF-8, as `''`.
pub fn shown_name(name: Option<&str>) -> &str {
    match name {
        Some("") => "''",
        Some(name) => name,
        None => "a file",
    }
}

/// What the system says of an error, without its number.
pub fn words_of(alloc: Global, error: Error) -> Result<String, AllocError> {
    let text = format!(in alloc; "{error}")?;
    let Some(code) = error.raw_os_error() else {
        return Ok(text);
    };
    let number = format!(in alloc; " (os error {code})")?;
    match text.strip_suffix(number.as_str()) {
        Some(words) => String::from_str(alloc, words),
        None => String::from_str(alloc, text.as_str()),
    }
}

#[cfg(test)]
mod tests {
    use super::*;
    use std::io::ErrorKind;
    use std::test::Fail;

    // What is said of an error.
    static ERRORS: [(i32, &str); 5] = [
        (2, "No such file or directory"),
        (5, "Input/output error"),
        (21, "Is a directory"),
        (28, "No space left on device"),
        (32, "Broken pipe"),
    ];

    #[test]
    fn an_error_is_told_without_its_number(rt: HostRuntime) -> Result<(), Fail> {
        for (code, want) in ERRORS.iter() {
            let words = words_of(rt.alloc(), Error::from_raw_os_error(*code))?;
            assert!(rt; words.as_str() == *want, "{code}");
        }
        let words = words_of(
            rt.alloc(),
            Error::new(ErrorKind::WriteZero, "nothing was taken"),
        )?;
        assert!(rt; words.as_str() == "nothing was taken");
        Ok(())
    }

    // The status, the name that was asked for last, what is said of the call that failed, and the line.
    static REASONS: [(u8, Option<&str>, &str, &str); 6] = [
        (
            5,
            Some("p.json"),
            "Is a directory",
            "uttab: p.json: Is a directory",
        ),
        (
            5,
            Some(""),
            "No such file or directory",
            "uttab: '': No such file or directory",
        ),
        (
            6,
            Some("s.txt"),
            "Broken pipe",
            "uttab: standard output: Broken pipe",
        ),
        (7, None, "", "uttab: out of memory"),
        (8, Some("-"), "", "uttab: -: more than 134217728 bytes"),
        (9, None, "", "uttab: the system gives no arguments"),
    ];

    #[test]
    fn a_reason_names_the_file_and_the_cause(rt: HostRuntime) -> Result<(), Fail> {
        for (status, name, cause, want) in REASONS.iter() {
            let reason = Reason::of(*status, shown_name(*name), cause);
            let so = match reason {
                Some(reason) => format!(in rt.alloc(); "{reason}")?.as_str() == *want,
                None => false,
            };
            assert!(rt; so, "{want}");
        }
        Ok(())
    }
}
