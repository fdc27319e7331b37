// Tables from bytes: whole, or with the rest of the caller's slice handed back.
ghost use Rattle.std.specs.Prelude.{◌≡◌, ◌≤◌};
ghost use Rattle.complete_tables.specs.Complete.{complete_outcome};
ghost use Rattle.table_files.specs.WithCores.{read_complete, table_read, rest_after, read_whole_complete};

use crate::reading::read_listed;
use complete_tables::{TableWithCores, accept};
use drive_sets::Refusal;
use survivor_tables::frames::MaskKind;

// A table with anything behind it, which the caller's slice is set to; on a refusal the slice is left as it was.
pub fn read_table<'a, 'b>(s: &'b [u8], rest: &'a mut &'b [u8]) -> Result<TableWithCores, Refusal>
    ensures value { complete_outcome result ≡ table_read (read_complete s.now) }
    ensures rest_after { rest.new.now ≡ rest_after (read_complete s.now) rest.old.now }
{
    let listed = read_listed(s, MaskKind::SurvivorSet)?;
    let t = accept(listed.table.n, listed.table.sets.as_slice())?;
    *rest = &s[listed.used..];
    Ok(t)
}

// A table and nothing more: bytes after the end meet 7.
#[tactic(auto, using(crate::proofs::TableReads::whole_refused, crate::proofs::TableReads::whole_trailing, crate::proofs::TableReads::whole_given))]
pub fn read_whole(s: &[u8]) -> Result<TableWithCores, Refusal>
    ensures { complete_outcome result ≡ read_whole_complete s.now }
{
    let listed = read_listed(s, MaskKind::SurvivorSet)?;
    if listed.used < s.len() {
        return Err(Refusal::TrailingBytes);
    }
    accept(listed.table.n, listed.table.sets.as_slice())
}
