use crate::Happening;

// An event, and the bytes of all strays: a stray says where among them its own are.
#[derive(Clone, Copy, Debug)]
pub struct Incident<'a> {
    pub event: Happening,
    pub strays: &'a [u8],
}
