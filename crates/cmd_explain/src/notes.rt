/// Notes in their order, each a text of its own.
pub type Notes = Vec<Vec<u8>>;
