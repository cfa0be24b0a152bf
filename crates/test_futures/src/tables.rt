// A table over several pages and parts.
use mono_table::Table;
use std::alloc::Global;
use std::process::Abort;

/// Adds `numbers` numbers, each with itself as its value, and removes all but every thousandth at once.
fn fill<R: Abort>(rt: &R, alloc: Global, table: &mut Table<u64>, numbers: u64) {
    for number in 0..numbers {
        if table.len() == number {
            table.push(alloc, number).expect(rt, "memory");
        }
        if number % 1000 != 0 && table.get(number).is_some() {
            table.remove(number);
        }
    }
}

/// Every thousandth of 150,000 numbers lives on, through pages and parts that were given back.
#[test]
fn numbers(rt: HostRuntime) {
    let mut table = Table::new(rt.alloc());
    fill(&rt, rt.alloc(), &mut table, 150_000);
    assert!(rt; table.len() == 150_000 && table.count() == 150);
}
