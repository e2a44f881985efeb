use std::env::{Env, FillError};

/// The words of the command line, with the program's own name in place of the path that it was
/// called by: that path is no word of the user's, and need not be UTF-8.
#[derive(Drop)]
pub struct UserWords<'a> {
    rt: &'a HostRuntime,
}

const NAME: &[u8] = b"cueplayer";

impl<'a> UserWords<'a> {
    pub fn new(rt: &'a HostRuntime) -> Self {
        UserWords { rt }
    }
}

impl Env for UserWords<'_> {
    fn arg(&self, i: usize, buf: &mut [u8]) -> Result<usize, FillError> {
        if i > 0 {
            return self.rt.arg(i, buf);
        }
        if buf.len() < NAME.len() {
            return Err(FillError::TooLong);
        }
        buf[..NAME.len()].copy_from_slice(NAME);
        Ok(NAME.len())
    }

    fn var(&self, name: &str, buf: &mut [u8]) -> Result<usize, FillError> {
        self.rt.var(name, buf)
    }

    fn var_at(&self, i: usize, buf: &mut [u8]) -> Result<usize, FillError> {
        self.rt.var_at(i, buf)
    }
}
