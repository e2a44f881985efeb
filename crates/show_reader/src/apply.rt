ghost use Rattle.std.specs.Prelude.{◌≡◌, false, OnOk, IfErr, None};
ghost use Rattle.show_core.specs.declared.fault.BuildFault.TheVariants as build_fault;
ghost use Rattle.show_line.specs.declared.fault.LineFault.TheVariants as line_fault;
ghost use Rattle.show_line.specs.Sound.{IsSound};
ghost use Rattle.show_reader.specs.declared.apply.Refusal.TheVariants as refusal;
ghost use Rattle.show_reader.specs.Reading.{grows};
ghost use Rattle.show_reader.specs.Applied.{show_after, refused_by, with_record, without_tables};
ghost use Rattle.show_reader.specs.Applied.{HasOwner};
ghost use Rattle.show_reader.specs.Reads.{show_of_draft, IsDraft, IsSettled, ExplainsRefusal};

use crate::draft::Draft;
use show_core::{BuildFault, Show};
use show_line::{Cleared, LineFault, Record, Statement, Table};
use std::alloc::AllocError;

/// Why a statement was not carried out.
#[derive(Clone, Copy, Debug)]
pub enum Refusal {
    Fault(LineFault),
    Memory,
}

impl From<AllocError> for Refusal {
    ghost from_gives = { λ _ e. e ≡ refusal.Memory };

    fn from(_e: AllocError) -> Refusal {
        Refusal::Memory
    }
}

// What a builder's refusal is to a line.
fn refusal_of(fault: BuildFault) -> Refusal
    ensures limit { fault ≡ build_fault.Limit → result ≡ Refusal.Fault line_fault.Limit }
    ensures memory { fault ≡ build_fault.Memory → result ≡ Refusal.Memory }
{
    match fault {
        BuildFault::Limit => Refusal::Fault(LineFault::Limit),
        BuildFault::Memory => Refusal::Memory,
    }
}

/// Carries a statement out. After an error the draft may hold a part of the statement.
pub fn apply(draft: &mut Draft, statement: Statement<'_>) -> Result<(), Refusal>
    requires sound { IsSound statement }
    requires drafted { IsDraft draft.old }
    requires owned { HasOwner (show_of_draft draft.old) statement }
    ensures fine { OnOk result (refused_by (show_of_draft draft.old) statement.entry ≡ None) }
    ensures drafted { OnOk result (IsDraft draft.new) }
    ensures ok { OnOk result
        (show_of_draft draft.new ≡ show_after statement.entry (show_of_draft draft.old)) }
    ensures settled { OnOk result
        (IsSettled draft.old → grows statement.entry ≡ false → IsSettled draft.new) }
    ensures err { IfErr result (ExplainsRefusal draft.old statement.entry) }
{
    match statement {
        Statement::Opens(which) => open(draft, which)?,
        Statement::Levels(which, pairs) => draft.list(which, pairs)?,
        Statement::SetsTime(n, time) => {
            draft.put_levels()?;
            draft.show.set_time(n, time);
        }
        Statement::Patches(triples) => draft.patch(triples)?,
        Statement::Clears(what) => {
            draft.settle()?;
            clear(&mut draft.show, what);
        }
        Statement::Quiet | Statement::Skipped => {}
        Statement::Faulty(fault) => return Err(Refusal::Fault(fault)),
    }
    Ok(())
}

fn open(draft: &mut Draft, which: Record) -> Result<(), Refusal>
    requires sound { IsSound (Statement.Opens which) }
    requires drafted { IsDraft draft.old }
    ensures fine { OnOk result
        (refused_by (show_of_draft draft.old) (Statement.Opens which) ≡ None) }
    ensures drafted { OnOk result (IsDraft draft.new) }
    ensures ok { OnOk result
        (show_of_draft draft.new ≡ with_record (show_of_draft draft.old) which) }
    ensures err { IfErr result (ExplainsRefusal draft.old (Statement.Opens which)) }
{
    draft.put_levels()?;
    let opened = match which {
        Record::Cue(n) => draft.show.open_cue(n),
        Record::Group(n) => draft.show.open_group(n),
        Record::Sub(n) => draft.show.open_sub(n),
    };
    opened.map_err(refusal_of)
}

fn clear(show: &mut Show, what: Cleared)
    ensures { show.new ≡ without_tables what show.old }
{
    match what {
        Cleared::All => {
            show.clear_cues();
            show.clear_subs();
            show.clear_groups();
            show.clear_patch();
        }
        Cleared::Only(Table::Cues) => show.clear_cues(),
        Cleared::Only(Table::Groups) => show.clear_groups(),
        Cleared::Only(Table::Subs) => show.clear_subs(),
        Cleared::Only(Table::Patch) => show.clear_patch(),
    }
}
