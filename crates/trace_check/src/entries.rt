ghost use Rattle.std.specs.Prelude.{◌≡◌, ◌≢◌, IfOk, MatchOption};
ghost use Rattle.effect_journal.specs.declared.entry.Entry.{Entry};
ghost use Rattle.effect_journal.specs.Journal.{IsEntry, line, version_1, version_2};
ghost use Rattle.trace_check.specs.Migration.{messages_1, SameEntry, LineMigrates};

use crate::requests::in_version_2;
use effect_journal::{Entry, Version, read_entry};
use std::alloc::{AllocError, Global};

/// The entry in version 2 of which this is the line in version 1, its request a whole message.
pub(crate) fn migrated(alloc: Global, text: &[u8]) -> Result<Option<Entry>, AllocError>
    ensures { IfOk result (λ found. MatchOption found ((e : Entry) → IsEntry messages_1.allows e → text.now ≢ line e) (LineMigrates text.now)) }
{
    let Some(entry) = read_entry(alloc, Version::One, text)? else {
        return Ok(None);
    };
    rewritten(alloc, entry)
}

fn rewritten(alloc: Global, entry: Entry) -> Result<Option<Entry>, AllocError>
    requires { IsEntry version_1.allows entry }
    ensures { IfOk result (λ found. MatchOption found (IsEntry messages_1.allows entry → ⊥)
        (λ new. IsEntry messages_1.allows entry × SameEntry entry new × IsEntry version_2.allows new)) }
{
    match entry {
        Entry::Serve { processor, request } => {
            let Some(request) = in_version_2(alloc, request.as_slice())? else {
                return Ok(None);
            };
            Ok(Some(Entry::Serve { processor, request }))
        }
        Entry::Make { request } => {
            let Some(request) = in_version_2(alloc, request.as_slice())? else {
                return Ok(None);
            };
            Ok(Some(Entry::Make { request }))
        }
        entry => Ok(Some(entry)),
    }
}
