use crate::order::Order;
use ccpp_edge::List;
use std::alloc::{AllocError, Global};

/// What a run is asked for.
#[derive(Drop)]
pub(crate) struct Words {
    pub order: Order,
    /// How many steps may be made.
    pub limit: u64,
    pub args: List<i64>,
    /// Whether the report tells how many steps were made.
    pub counts: bool,
}

/// The name of the file, and what is asked, of the words `[--steps] F first|last|SEED LIMIT [ints]`. `None` where they are others.
pub(crate) fn words_of<'a>(
    alloc: Global,
    words: &'a [String],
) -> Result<Option<(&'a str, Words)>, AllocError> {
    let (counts, words) = match words {
        [first, rest @ ..] if first.as_str() == "--steps" => (true, rest),
        _ => (false, words),
    };
    let [file, order, limit, ints @ ..] = words else {
        return Ok(None);
    };
    let (Some(order), Ok(limit)) = (Order::of(order.as_str()), limit.as_str().parse::<u64>()) else {
        return Ok(None);
    };
    let mut args = List::new(alloc);
    for int in ints {
        let Ok(int) = int.as_str().parse::<i64>() else {
            return Ok(None);
        };
        args.push(int)?;
    }
    let words = Words {
        order,
        limit,
        args,
        counts,
    };
    Ok(Some((file.as_str(), words)))
}
