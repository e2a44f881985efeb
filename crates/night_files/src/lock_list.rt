ghost use Rattle.std.specs.Prelude.{◌≡◌, ◌++◌, ◌<◌, ◌^◌, IfOk, codes, decimal, drop, length};
ghost use Rattle.std.specs.Prelude.{string_bytes};
ghost use Rattle.ascii_text.specs.Text.{lines_of};
ghost use Rattle.night_files.specs.LockLists.{descriptor_in, hex_text, is_lock_of, locking_process};
ghost use Rattle.night_files.specs.LockLists.{major_number, minor_number, node_text};
ghost use Rattle.night_files.specs.LockLists.{process_in, word_at};

use crate::file_node::FileNode;
use ascii_text::{Lines, Words, number};
use std::alloc::{AllocError, Global};

/// The process that locked a file, by the system's list of locks, where the list names it.
///
/// # Errors
///
/// If an allocation failed.
pub fn process_in_list(
    alloc: Global,
    list: &[u8],
    node: FileNode,
) -> Result<Option<u32>, AllocError>
    requires { length list.now < 2 ^ 32 }
    ensures { IfOk result (λ process. process
        ≡ locking_process (node_text node.device node.inode) list.now) }
{
    let name = node_text(alloc, node.device, node.inode)?;
    Ok(locking_process(list, name.as_str()))
}

// How the list names the file of this number on a device, as `fe:00:5325926`.
fn node_text(alloc: Global, device: u64, inode: u64) -> Result<String, AllocError>
    ensures { IfOk result (λ text. string_bytes text ≡ node_text device inode) }
{
    let major = hex_text(alloc, major_number(device))?;
    let minor = hex_text(alloc, minor_number(device))?;
    node_of_parts(alloc, major.as_str(), minor.as_str(), inode)
}

fn node_of_parts(alloc: Global, major: &str, minor: &str, inode: u64) -> Result<String, AllocError>
    ensures { IfOk result (λ text. string_bytes text
        ≡ major.now ++ codes ":" ++ minor.now ++ codes ":" ++ decimal inode) }
{
    format!(in alloc; "{major}:{minor}:{inode}")
}

fn major_number(device: u64) -> u32
    ensures { result ≡ major_number device }
{
    ((device >> 8) % 4096 + (device >> 44) * 4096) as u32
}

fn minor_number(device: u64) -> u32
    ensures { result ≡ minor_number device }
{
    (device % 256 + (device >> 20) % 0x100_0000 * 256) as u32
}

fn hex_text(alloc: Global, number: u32) -> Result<String, AllocError>
    ensures { IfOk result (λ text. string_bytes text ≡ hex_text number) }
{
    if number < 16 {
        format!(in alloc; "0{number:x}")
    } else {
        format!(in alloc; "{number:x}")
    }
}

// A line of the list is as `1: FLOCK  ADVISORY  WRITE 1921 fe:00:5325926 0 EOF`.
fn locking_process(list: &[u8], node: &str) -> Option<u32>
    requires { length list.now < 2 ^ 32 }
    ensures { result ≡ locking_process node.now list.now }
{
    for line in Lines::new(list) {
        if is_lock_of(line.bytes, node) {
            return process_in(line.bytes);
        }
    }
    None
}

fn is_lock_of(line: &[u8], node: &str) -> bool
    ensures { result ≡ is_lock_of node.now line.now }
{
    word_at(line, 1) == b"FLOCK".as_slice() && word_at(line, 5) == node.as_bytes()
}

fn process_in(line: &[u8]) -> Option<u32>
    ensures { result ≡ process_in line.now }
{
    number(word_at(line, 4))
}

// The word at this place of a line, from 0; empty where the line has none there.
fn word_at(line: &[u8], place: usize) -> &[u8]
    ensures { result.now ≡ word_at place line.now }
{
    let mut words = Words::new(line);
    for _ in 0..place {
        skip_word(&mut words);
    }
    words.next().unwrap_or(&[])
}

fn skip_word(words: &mut Words)
    ensures { words.new ≡ drop 1 words.old }
{
    let _ = words.next();
}

// The number of the descriptor that a name spells, as `/dev/fd/3`.
pub(crate) fn descriptor_in(name: &[u8]) -> Option<u32>
    ensures { result ≡ descriptor_in name.now }
{
    if name.len() < 8 {
        return None;
    }
    let (folder, number_text) = name.split_at(8);
    if folder == b"/dev/fd/".as_slice() {
        number(number_text)
    } else {
        None
    }
}
