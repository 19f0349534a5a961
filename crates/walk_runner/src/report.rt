use crate::order::Order;
use crate::words::Words;
use cc_lexer::lex;
use cc_parser::parse;
use cc_types::{Checked, check};
use cc_walk::{Stepped, Walk};
use ccpp_edge::Bytes;
use global_ptr::Standing;
use std::alloc::{AllocError, Global};

/// Why there is no report.
#[derive(Clone, Copy, Debug)]
pub(crate) enum Trouble {
    /// The text is no program.
    Refused,
    /// `main` takes another number of ints.
    IntCount,
    Memory,
}

impl From<AllocError> for Trouble {
    ghost use Rattle.std.specs.Prelude.{◌≡◌};
    ghost use Rattle.walk_runner.specs.declared.report.Trouble.TheVariants.{Memory};

    ghost from_gives = { λ _ trouble. trouble ≡ Memory };

    fn from(_: AllocError) -> Trouble {
        Trouble::Memory
    }
}

/// How a run ended, and after how many steps.
#[derive(Clone, Copy)]
struct Ended {
    standing: Standing,
    steps: u64,
}

/// The program of a text.
fn program_of(alloc: Global, source: &[u8]) -> Result<Checked, Trouble> {
    let tokens = lex(alloc, source).map_err(|_| Trouble::Refused)?;
    let tree = parse(alloc, tokens.as_slice(), source).map_err(|_| Trouble::Refused)?;
    check(alloc, tree).map_err(|_| Trouble::Refused)
}

/// The walk at the start of a run of a text's program from these ints.
pub(crate) fn walk_of(alloc: Global, source: &[u8], args: &[i64]) -> Result<Walk, Trouble> {
    match program_of(alloc, source) {
        Ok(checked) => started(alloc, &checked, args),
        Err(trouble) => Err(trouble),
    }
}

fn started(alloc: Global, checked: &Checked, args: &[i64]) -> Result<Walk, Trouble> {
    if args.len() != checked.main_parameters() as usize {
        return Err(Trouble::IntCount);
    }
    Ok(Walk::start(alloc, checked, args)?)
}

/// The report of a run of a source, as the words ask for it.
pub(crate) fn report(alloc: Global, source: &[u8], words: Words) -> Result<Bytes, Trouble> {
    let Words {
        order,
        limit,
        args,
        counts,
    } = words;
    let mut walk = walk_of(alloc, source, args.as_slice())?;
    let ended = run(&mut walk, order, limit)?;
    let mut text = Bytes::from_slice(alloc, walk.output())?;
    end_line(&mut text)?;
    let standing = standing_text(alloc, ended.standing)?;
    text.extend_from_slice(standing.as_bytes())?;
    if counts {
        let steps = ended.steps;
        let line = format!(in alloc; "== steps {steps}\n")?;
        text.extend_from_slice(line.as_bytes())?;
    }
    Ok(text)
}

/// Steps a walk in an order, up to a limit.
fn run(walk: &mut Walk, mut order: Order, limit: u64) -> Result<Ended, AllocError> {
    for steps in 0..limit {
        let Some(t) = order.pick(walk)? else {
            let standing = at_rest(walk);
            return Ok(Ended { standing, steps });
        };
        match walk.step(t) {
            Stepped::Moved => {}
            Stepped::Fault(fault) => {
                let standing = Standing::Fault(fault);
                return Ok(Ended { standing, steps });
            }
            _ => return Err(AllocError),
        }
    }
    let standing = match walk.enabled() {
        Some(_) => Standing::Limit(limit),
        None => at_rest(walk),
    };
    Ok(Ended {
        standing,
        steps: limit,
    })
}

/// How a run stands where no thread can move.
fn at_rest(walk: &Walk) -> Standing {
    let left = walk.threads_left();
    match walk.main_value() {
        Some(value) if left == 0 => Standing::Done(value),
        _ => Standing::Blocked(left),
    }
}

/// Ends a line that is begun.
fn end_line(text: &mut Bytes) -> Result<(), AllocError> {
    if text.as_slice().last().is_some_and(|last| *last != b'\n') {
        text.push(b'\n')?;
    }
    Ok(())
}

fn standing_text(alloc: Global, standing: Standing) -> Result<String, AllocError> {
    match standing {
        Standing::Done(value) => format!(in alloc; "== done {value}\n"),
        Standing::Blocked(left) => format!(in alloc; "== blocked {left}\n"),
        Standing::Fault(fault) => {
            let name = fault.kind.name();
            let at = fault.line;
            format!(in alloc; "== fault {name} line {at}\n")
        }
        Standing::Limit(limit) => format!(in alloc; "== limit {limit}\n"),
    }
}
