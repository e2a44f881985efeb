use byte_reading::read_some;
use devices::{Feed, LinkFault};
use std::io::Read;

/// An input of the system: a file, a pipe or a terminal. It does not tell what it gave.
#[derive(Drop)]
pub struct SystemInput<R> {
    inner: R,
}

impl<R: Read> SystemInput<R> {
    pub fn new(inner: R) -> Self {
        SystemInput { inner }
    }
}

impl<R: Read> Feed for SystemInput<R> {
    fn read(&mut self, buf: &mut [u8; 4096]) -> Result<usize, LinkFault> {
        read_some(&mut self.inner, buf).map_err(|_| LinkFault)
    }
}
