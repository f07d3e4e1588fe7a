//! Whether what is left of an output is whole frames.
ghost use Rattle.std.specs.Prelude.{◌≡◌, IfErr, IfOk};
ghost use Rattle.c_journals.specs.Journals.{EndsAs};
ghost use Rattle.journal_entries.specs.declared.fault.JournalFault.TheVariants as journal_fault;

use journal_entries::JournalFault;
use journal_entries::storing::next_written;
use journal_protocol::Decoder;

/// Takes the whole frames that are left, of which nothing is stored; whether no bytes are left after them.
pub fn ends_whole(left: &mut Decoder) -> Result<bool, JournalFault>
    ensures ok { IfOk result (λ whole. EndsAs left.old whole) }
    ensures err { IfErr result (λ f. f ≡ journal_fault.Memory) }
{
    while next_written(left)?.is_some() {}
    Ok(left.waiting().is_empty())
}
