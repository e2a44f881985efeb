ghost use Rattle.std.specs.Prelude.{◌≡◌, ◌++◌, [], true, Some, OnOk};
ghost use Rattle.show_reader.specs.Keys.{table_of};
ghost use Rattle.show_reader.specs.Meaning.{empties, same_record, same_table};
ghost use Rattle.cmd_explain.specs.LineNotes.{again_text, again_note_on, opening_line};
ghost use Rattle.cmd_explain.specs.LineNotes.{openings_after, record_text};
ghost use Rattle.cmd_explain.specs.NotesOf.{IsTaken};

use crate::decimal::{push_decimal, push_number};
use crate::line_notes::push_front;
use show_line::{Cleared, Record, Statement, Table};
use std::alloc::{AllocError, Global};

/// The line that opened a record first.
#[derive(Clone, Copy)]
pub struct Opening {
    pub which: Record,
    pub line: u32,
}

/// The records of a table that are there, and the notes on those that were opened again.
#[derive(Drop)]
pub struct Openings {
    pub table: Table,
    pub list: Vec<Opening>,
    pub notes: Vec<u8>,
}

impl Openings {
    pub fn new(alloc: Global, table: Table) -> Openings
        ensures table { result.table ≡ table }
        ensures list { result.list.items ≡ [] }
        ensures notes { result.notes.items ≡ [] }
    {
        Openings {
            table,
            list: Vec::new(alloc),
            notes: Vec::new(alloc),
        }
    }

    /// Takes the line of this number, which says this.
    pub fn take(&mut self, number: u32, statement: &Statement<'_>) -> Result<(), AllocError>
        ensures { OnOk result (IsTaken number statement.now self.old self.new) }
    {
        match statement {
            Statement::Opens(which) if is_in(*which, self.table) => self.open(number, *which),
            Statement::Clears(what) => {
                if is_emptied(*what, self.table) {
                    self.list.clear();
                }
                Ok(())
            }
            _ => Ok(()),
        }
    }

    fn open(&mut self, number: u32, which: Record) -> Result<(), AllocError>
        requires { same_table (table_of which) self.old.table ≡ true }
        ensures table { self.new.table ≡ self.old.table }
        ensures list { OnOk result (self.new.list.items
            ≡ openings_after self.old.table number (Statement.Opens which) self.old.list.items) }
        ensures notes { OnOk result (self.new.notes.items ≡ self.old.notes.items
            ++ again_note_on number which (opening_line which self.old.list.items)) }
    {
        match self.line_of(which) {
            Some(first) => push_again(&mut self.notes, number, which, first),
            None => {
                self.list.push(Opening {
                    which,
                    line: number,
                })?;
                Ok(())
            }
        }
    }

    fn line_of(&self, which: Record) -> Option<u32>
        ensures { result ≡ opening_line which self.now.list.items }
    {
        for opening in &self.list {
            if is_same_record(which, opening.which) {
                return Some(opening.line);
            }
        }
        None
    }
}

/// Whether two records are the same one.
pub fn is_same_record(one: Record, other: Record) -> bool
    ensures { result ≡ same_record one other }
{
    match (one, other) {
        (Record::Cue(one), Record::Cue(other)) => one == other,
        (Record::Group(one), Record::Group(other)) => one == other,
        (Record::Sub(one), Record::Sub(other)) => one == other,
        _ => false,
    }
}

fn is_in(which: Record, table: Table) -> bool
    ensures { result ≡ same_table (table_of which) table }
{
    matches!(
        (which, table),
        (Record::Cue(_), Table::Cues)
            | (Record::Group(_), Table::Groups)
            | (Record::Sub(_), Table::Subs)
    )
}

/// The table that a record is in.
pub fn table_of(which: Record) -> Table
    ensures { result ≡ table_of which }
{
    match which {
        Record::Cue(_) => Table::Cues,
        Record::Group(_) => Table::Groups,
        Record::Sub(_) => Table::Subs,
    }
}

/// Whether a CLEAR empties a table.
pub fn is_emptied(what: Cleared, table: Table) -> bool
    ensures { result ≡ empties what table }
{
    match what {
        Cleared::All => true,
        Cleared::Only(cleared) => matches!(
            (table, cleared),
            (Table::Cues, Table::Cues)
                | (Table::Groups, Table::Groups)
                | (Table::Subs, Table::Subs)
                | (Table::Patch, Table::Patch)
        ),
    }
}

fn push_again(out: &mut Vec<u8>, number: u32, which: Record, first: u32) -> Result<(), AllocError>
    ensures { OnOk result (out.new.items
        ≡ out.old.items ++ again_note_on number which (Some first)) }
{
    push_front(out, number)?;
    push_again_text(out, which, first)?;
    out.push(b'\n')?;
    Ok(())
}

fn push_again_text(out: &mut Vec<u8>, which: Record, first: u32) -> Result<(), AllocError>
    ensures { OnOk result (out.new.items ≡ out.old.items ++ again_text which first) }
{
    push_record(out, which)?;
    out.extend_from_slice(b" is opened again, as on line ")?;
    push_number(out, u64::from(first))?;
    out.extend_from_slice(b": their lines count together")?;
    Ok(())
}

/// Appends what names a record.
pub fn push_record(out: &mut Vec<u8>, which: Record) -> Result<(), AllocError>
    ensures { OnOk result (out.new.items ≡ out.old.items ++ record_text which) }
{
    match which {
        Record::Cue(n) => {
            out.extend_from_slice(b"cue ")?;
            push_decimal(out, n)
        }
        Record::Group(n) => {
            out.extend_from_slice(b"group ")?;
            push_number(out, u64::from(n))
        }
        Record::Sub(n) => {
            out.extend_from_slice(b"submaster ")?;
            push_number(out, u64::from(n))
        }
    }
}
