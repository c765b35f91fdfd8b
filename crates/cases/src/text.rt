// Bytes and refusals as text.
use rules::FileError;
use std::fmt;

// Two hexadecimal digits for each byte.
#[derive(Clone, Copy)]
pub(crate) struct Hex<'a>(pub(crate) &'a [u8]);

impl fmt::Display for Hex<'_> {
    fn fmt<W: fmt::Write>(&self, f: &mut fmt::Formatter<W>) -> fmt::Result {
        for byte in self.0 {
            write!(f, "{byte:02x}")?;
        }
        Ok(())
    }
}

// Why a call is refused: the error's code, and the train and the place that it is about, each after a comma; 0 where it is not refused.
#[derive(Clone, Copy)]
pub(crate) struct Told<'a, T>(pub(crate) &'a Result<T, FileError>);

impl<T> fmt::Display for Told<'_, T> {
    fn fmt<W: fmt::Write>(&self, f: &mut fmt::Formatter<W>) -> fmt::Result {
        match self.0 {
            Ok(_) => write!(f, "0"),
            Err(e) => {
                let code = e.code();
                write!(f, "{code}")?;
                if let FileError::NoSuchSegment(at) | FileError::NotFollowing(at) = e {
                    let (train, place) = (at.train, at.place);
                    write!(f, ",{train},{place}")?;
                }
                Ok(())
            }
        }
    }
}
