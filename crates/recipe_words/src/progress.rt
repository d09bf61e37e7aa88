// The bytes done, shown on standard error where that is a terminal, of messages over 64 KiB. A failed write of them is
// passed over.
use std::io::IsTerminal;

fn is_shown(rt: &HostRuntime, count: u64) -> bool {
    count > 65536 && rt.stderr().is_terminal()
}

// The count, after each 4,096 bytes.
pub fn show(rt: &HostRuntime, before: u64, count: u64) {
    if before / 4096 < count / 4096 && is_shown(rt, count) {
        let _ = eprint!(rt; "\r{count} bytes");
    }
}

// An empty line again.
pub fn wipe(rt: &HostRuntime, count: u64) {
    if is_shown(rt, count) {
        let _ = eprint!(rt; "\r\x1b[K");
    }
}
