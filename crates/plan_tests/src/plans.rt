// Plans as text.
use std::alloc::{AllocError, Global};

/// One carrier of one sample in each frame, with 8 bits of I and of Q, and one flow of one frame in a packet.
pub const SIMPLEST: &str =
    "version = 1\noption = 1\nmode = \"bytes\"\nplayout = 2\n[[carrier]]\nmethod = 1\ns = 1\nk = 1\nm = 8\nstart = 0\nsize = 16\n[[flow]]\nid = 7\ndst = \"020000000001\"\nsrc = \"020000000002\"\ncontrol = true\ncarriers = [0]\nframes = 1\nlmin = 0\nlmax = 2\ncap = 3\np = 4\nq = 4\n";

/// Its carrier.
pub const CARRIER: &str = "[[carrier]]\nmethod = 1\ns = 1\nk = 1\nm = 8\nstart = 0\nsize = 16\n";

/// The method, the rate, the width and the container of its carrier.
pub const MAPPING: &str = "method = 1\ns = 1\nk = 1\nm = 8\nstart = 0\nsize = 16\n";

/// The same with a carrier of 11.2 MHz by method 1, which has 35 samples in 12 frames.
pub const MAPPING_11_2_MHZ: &str = "method = 1\ns = 35\nk = 12\nm = 15\nstart = 0\nsize = 88\n";

/// Its flow.
pub const FLOW: &str =
    "[[flow]]\nid = 7\ndst = \"020000000001\"\nsrc = \"020000000002\"\ncontrol = true\ncarriers = [0]\nframes = 1\nlmin = 0\nlmax = 2\ncap = 3\np = 4\nq = 4\n";

/// The same in version 2 of plans, without pieces.
pub const IN_PIECES: &str =
    "version = 2\noption = 1\nmode = \"bytes\"\nplayout = 2\n[[carrier]]\nmethod = 1\ns = 1\nk = 1\nm = 8\npieces = []\n[[flow]]\nid = 7\ndst = \"020000000001\"\nsrc = \"020000000002\"\ncontrol = true\ncarriers = [0]\nframes = 1\nlmin = 0\nlmax = 2\ncap = 3\np = 4\nq = 4\n";

/// Two carriers in mode `aware`, each in a flow of its own.
pub const TWO_FLOWS: &str =
    "version = 1\noption = 1\nmode = \"aware\"\nplayout = 2\n[[carrier]]\nmethod = 1\ns = 1\nk = 1\nm = 8\nstart = 0\nsize = 16\n[[carrier]]\nmethod = 1\ns = 1\nk = 1\nm = 8\nstart = 16\nsize = 16\n[[flow]]\nid = 7\ndst = \"020000000001\"\nsrc = \"020000000002\"\ncontrol = true\ncarriers = [0]\nframes = 1\nlmin = 0\nlmax = 2\ncap = 3\np = 4\nq = 4\n[[flow]]\nid = 8\ndst = \"020000000001\"\nsrc = \"020000000002\"\ncontrol = false\ncarriers = [1]\nframes = 1\nlmin = 0\nlmax = 2\ncap = 3\np = 4\nq = 4\n";

/// The same in version 2 of plans, each carrier in two pieces.
pub const TWO_IN_PIECES: &str =
    "version = 2\noption = 1\nmode = \"aware\"\nplayout = 2\n[[carrier]]\nmethod = 1\ns = 1\nk = 1\nm = 8\npieces = [[0, 8], [40, 8]]\n[[carrier]]\nmethod = 1\ns = 1\nk = 1\nm = 8\npieces = [[8, 8], [48, 8]]\n[[flow]]\nid = 7\ndst = \"020000000001\"\nsrc = \"020000000002\"\ncontrol = true\ncarriers = [0]\nframes = 1\nlmin = 0\nlmax = 2\ncap = 3\np = 4\nq = 4\n[[flow]]\nid = 8\ndst = \"020000000001\"\nsrc = \"020000000002\"\ncontrol = false\ncarriers = [1]\nframes = 1\nlmin = 0\nlmax = 2\ncap = 3\np = 4\nq = 4\n";

/// Two LTE carriers of 20 MHz that fill option 3, in packets of four frames.
pub const LTE_PAIR: &str =
    "version = 1\noption = 3\nmode = \"bytes\"\nplayout = 33\n[[carrier]]\nmethod = 1\ns = 8\nk = 1\nm = 15\nstart = 0\nsize = 240\n[[carrier]]\nmethod = 1\ns = 8\nk = 1\nm = 15\nstart = 240\nsize = 240\n[[flow]]\nid = 7\ndst = \"020000000001\"\nsrc = \"020000000002\"\ncontrol = true\ncarriers = [0, 1]\nframes = 4\nlmin = 10\nlmax = 30\ncap = 6\np = 256\nq = 256\n";

/// The plan with `new` in place of the first `old`.
pub fn changed(alloc: Global, plan: &str, old: &str, new: &str) -> Result<String, AllocError> {
    plan.replacen(alloc, old, new, 1)
}
