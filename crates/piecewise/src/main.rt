// Compares the exact demapper with the published piecewise forms of 16-QAM and 64-QAM at every reading.
#![tactic(auto)]

ghost use Rattle.std.specs.Prelude.{◌≤◌};

mod forms;

use demapping::{Demapper, Exact};
use forms::Form;
use qam::Reading;
use std::io;

/// At how many of the 4,095 readings the exact demapper answers what the form says.
fn agreed(form: Form) -> usize
    ensures { result ≤ 4095 }
{
    (-2047..=2047)
        .filter_map(|steps: i16| Reading::try_from(steps).ok())
        .filter(|&reading| Exact.soft(form.axis(), reading)[form.place()] == form.at(reading))
        .count()
}

fn main(rt: HostRuntime) -> io::Result<()> {
    for form in Form::ALL {
        let count = agreed(form);
        println!(rt; "{form}: {count} of 4095 readings agree")?;
    }
    Ok(())
}
