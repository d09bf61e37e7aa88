// Makes the calls that a script on standard input tells it to, and writes everything that comes back to standard output.
#![tactic(auto)]

mod calls;

use calls::Kept;
use script::{reading, writing};

fn main(rt: HostRuntime) {
    let mut kept = Kept::nothing();
    for _ in 0..u64::MAX {
        let Some(code) = reading::byte(&rt) else {
            return;
        };
        if kept.call(&rt, code).is_none() {
            writing::byte(&rt, 255);
            return;
        }
    }
}
