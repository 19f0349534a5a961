ghost use Rattle.std.specs.Prelude.{◌≡◌};
ghost use Rattle.cc_scopes.specs.Sharing.{share_number};
ghost use Rattle.sharing_check.specs.Sharing as spec;

use cc_scopes::{Share, ShareRule};

/// Whether a program breaks a rule of sharing.
#[derive(Clone, Copy, Debug, PartialEq, Eq)]
pub enum Sharing {
    /// It breaks none.
    Determinate,
    /// It breaks this rule.
    Shared {
        /// Which.
        rule: ShareRule,
        /// The line, from 1.
        line: u32,
    },
}

#[tactic(auto, unfolding(crate::specs::Sharing::is_before))]
fn is_before(share: Share, other: Share) -> bool
    ensures { result ≡ spec.is_before share other }
{
    if share.line == other.line {
        share.rule.number() < other.rule.number()
    } else {
        share.line < other.line
    }
}

fn earlier(found: Option<Share>, next: Share) -> Option<Share>
    ensures { result ≡ spec.earlier found next }
{
    match found {
        None => Some(next),
        Some(other) => Some(if is_before(next, other) { next } else { other }),
    }
}

/// The broken rule that is named: the one with the least line, and at equal lines with the least number. `None` exactly where none
/// is broken.
pub fn least(shares: &[Share]) -> Option<Share>
    ensures computed { result ≡ spec.least shares.now }
    ensures least { spec.IsLeast shares.now result }
{
    let mut found = None;
    for next in shares {
        found = earlier(found, *next);
    }
    found
}

/// The answer for the rules that are broken: `Determinate` exactly where none is.
pub fn sharing_of(shares: &[Share]) -> Sharing
    ensures { result ≡ spec.sharing_of shares.now }
{
    match least(shares) {
        None => Sharing::Determinate,
        Some(share) => Sharing::Shared {
            rule: share.rule,
            line: share.line,
        },
    }
}
