ghost use Rattle.std.specs.Prelude.{◌≡◌, option_map, take};
ghost use Rattle.cmd_explain.specs.Encoding.{beginnings, kind_by_nul, kind_in, likely_kind};

// So many bytes are looked at.
const LOOKED_AT: usize = 512;

const UTF_16: &str = "text in UTF-16";

/// What a file of these bytes seems to be, where its first 512 bytes are no text.
pub fn seems(text: &[u8]) -> Option<&'static str>
    ensures { option_map (λ kind. kind.now) result ≡ likely_kind text.now }
{
    let front = first_bytes(text);
    kind_in(front).or(kind_by_nul(front))
}

fn first_bytes<'a>(text: &'a [u8]) -> &'a [u8]
    ensures { result.now ≡ take 512 text.now }
{
    &text[..text.len().min(LOOKED_AT)]
}

// What a file is that begins so.
fn kind_in(file: &[u8]) -> Option<&'static str>
    ensures { option_map (λ kind. kind.now) result ≡ kind_in beginnings file.now }
{
    if file.starts_with(b"\xff\xfe") || file.starts_with(b"\xfe\xff") {
        Some(UTF_16)
    } else if file.starts_with(b"\x89PNG\r\n\x1a\n") {
        Some("a picture (PNG)")
    } else if file.starts_with(b"\xff\xd8\xff") {
        Some("a picture (JPEG)")
    } else if file.starts_with(b"GIF8") {
        Some("a picture (GIF)")
    } else if file.starts_with(b"%PDF-") {
        Some("a document (PDF)")
    } else if file.starts_with(b"PK\x03\x04") {
        Some("an archive (ZIP)")
    } else if file.starts_with(b"\x1f\x8b") {
        Some("an archive (gzip)")
    } else {
        None
    }
}

// What it is by a NUL: one in the first two bytes is that of UTF-16.
fn kind_by_nul(file: &[u8]) -> Option<&'static str>
    ensures { option_map (λ kind. kind.now) result ≡ kind_by_nul file.now }
{
    if file.iter().take(2).any(|byte| *byte == 0) {
        Some(UTF_16)
    } else if file.contains(&0) {
        Some("data that is no text")
    } else {
        None
    }
}
