//! The fabrics whose journals are compared, by their texts.

/// A fabric, and to which depth its journal grows.
#[derive(Clone, Copy)]
pub(crate) struct Grown {
    /// What the line calls it.
    pub(crate) name: &'static str,
    /// The fabric's text.
    pub(crate) text: &'static str,
    /// The depth in cables.
    pub(crate) depth: u8,
}

const LONE_HOST: &str = "host a\nscript\n";

const ONE_CABLE: &str = "host a\nhost b\ncable a 0 b 0\nscript\n";

const TWO_HOSTS: &str = "host a\nhost b\nswitch s 8\ncable a 0 s 2\ncable b 0 s 5\nscript\n";

const CHAIN: &str = "host a\nhost b\nswitch s 8\nswitch t 8\nswitch u 8\n\
    cable a 0 s 0\ncable s 1 t 2\ncable t 5 u 4\ncable u 7 b 0\nscript\n";

const PARALLEL: &str = "host a\nhost b\nswitch s 8\nswitch t 8\n\
    cable a 0 s 0\ncable s 1 t 3\ncable s 2 t 6\ncable b 0 t 4\nscript\n";

const SELF_CABLED: &str = "host a\nhost b\nswitch s 4\nswitch t 4\n\
    cable a 0 s 0\ncable b 0 s 1\ncable s 3 t 0\ncable t 1 t 2\nscript\n";

const RING: &str =
    "host a\nhost b\nhost c\nhost d\nswitch s0 4\nswitch s1 4\nswitch s2 4\nswitch s3 4\n\
    cable s0 0 s1 1\ncable s1 0 s2 1\ncable s2 0 s3 1\ncable s3 0 s0 1\n\
    cable a 0 s0 2\ncable b 0 s1 2\ncable c 0 s2 2\ncable d 0 s3 2\nscript\n";

const RING_WITH_ONE_HOST: &str = "host a\nswitch s0 4\nswitch s1 4\nswitch s2 4\nswitch s3 4\n\
    cable s0 0 s1 1\ncable s1 0 s2 1\ncable s2 0 s3 1\ncable s3 0 s0 1\ncable a 0 s0 2\nscript\n";

/// The journals that are compared.
pub(crate) const JOURNALS: [Grown; 10] = [
    Grown {
        name: "a lone host",
        text: LONE_HOST,
        depth: 1,
    },
    Grown {
        name: "one cable",
        text: ONE_CABLE,
        depth: 2,
    },
    Grown {
        name: "two hosts",
        text: TWO_HOSTS,
        depth: 4,
    },
    Grown {
        name: "chain",
        text: CHAIN,
        depth: 4,
    },
    Grown {
        name: "parallel cables",
        text: PARALLEL,
        depth: 3,
    },
    Grown {
        name: "a switch cabled to itself",
        text: SELF_CABLED,
        depth: 5,
    },
    Grown {
        name: "ring",
        text: RING,
        depth: 4,
    },
    Grown {
        name: "ring with one host",
        text: RING_WITH_ONE_HOST,
        depth: 4,
    },
    Grown {
        name: "ring with one host",
        text: RING_WITH_ONE_HOST,
        depth: 6,
    },
    Grown {
        name: "ring with one host",
        text: RING_WITH_ONE_HOST,
        depth: 7,
    },
];
