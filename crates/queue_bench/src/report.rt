//! What the rounds cost, as text.
use crate::rounds::Costs;
use std::io;

/// Prints nanoseconds an item of each queue that was timed, and ratios to the kit's queue in
/// hundredths.
pub fn print_costs<R: Print>(rt: &R, what: &str, costs: &Costs, items: u64) -> io::Result<()> {
    for (name, cost) in [
        ("kit", costs.kit),
        ("solo", costs.solo),
        ("retry", costs.retry),
        ("sole", costs.sole),
        ("drop", costs.drop),
        ("drop beside a looker", costs.looked),
    ] {
        if cost < u128::MAX {
            let each = cost / u128::from(items.max(1));
            let ratio = hundredths(cost, costs.kit);
            println!(rt; "{what}, {name}: {each} ns, {ratio} hundredths of the kit's")?;
        }
    }
    Ok(())
}

/// Prints the ratio of one cost to another.
pub fn print_ratio<R: Print>(rt: &R, what: &str, cost: u128, other: u128) -> io::Result<()> {
    let ratio = hundredths(cost, other);
    println!(rt; "{what}: {ratio} hundredths")
}

fn hundredths(cost: u128, other: u128) -> u128 {
    cost.saturating_mul(100) / other.max(1)
}
