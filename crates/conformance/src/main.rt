// Runs published vectors and tables through the library, and prints what came; the stored output was made apart from it.
#![tactic(auto)]

mod frames;
mod labels;
mod rows;
mod vectors;

/// Names the theorems that the run rests on: each function computes nothing, and its contract is the theorem.
fn theorems() {
    paths::tests_show_laws();
    paths::closing_takes_steps();
    coding::messages_are_well_sent();
    interleaving::interleavers_are_bijections();
    interleaving::positions_are_carried_once();
    alternating::cannot_be_closed();
    paths::survivors_are_best::<u64>();
    orders::sum_is_a_sum();
    trellis::nearest_is_one::<u64>();
    let _ = softbits::exact_divisor();
    let _ = softbits::exact_range();
    softbits::short_agrees();
    softbits::near_is_nearest();
    softbits::signs_tell();
    demapping::exact_is_exact();
    let _ = demapping::short_gap();
    reception::least_is_nearest::<u64>();
    reception::unharmed_comes_back::<u64>();
    reception::orders_prefer_free::<u64>();
    worked::worked_numbers();
}

fn main(rt: HostRuntime) -> anyhow::Result<()> {
    theorems();
    labels::run(&rt)?;
    vectors::run(&rt)?;
    frames::run(&rt)?;
    rows::run(&rt)
}
