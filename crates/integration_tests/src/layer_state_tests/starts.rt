//! Lives with a background that starts by itself.
use super::lives::Source::{Blue, Clip, Other, Red, Route};
use super::lives::Step::{Load, LoadBg, Mixes, Pause, Play, Resume, Shows, Start, Stop};
use super::lives::{
    BLUE_NEXT, BLUE_NEXT_IN_2, BLUE_NEXT_IN_9, CLIP, LOOP, Life, OTHER_NEXT, PART, RED, ROUTE,
};

/// Over which foregrounds a background with AUTO starts by itself.
pub static AUTOMATIC_STARTS: [Life; 9] = [
    Life {
        name: "AUTO over nothing",
        steps: &[LoadBg(BLUE_NEXT), Shows(Blue, &[0, 0])],
    },
    Life {
        name: "AUTO after a STOP",
        steps: &[
            Start(CLIP),
            LoadBg(BLUE_NEXT),
            Shows(Clip, &[0]),
            Stop,
            Shows(Blue, &[0]),
        ],
    },
    Life {
        name: "AUTO with a CUT, after the last frame",
        steps: &[
            Start(CLIP),
            LoadBg(BLUE_NEXT),
            Shows(Clip, &[0, 1, 2]),
            Shows(Blue, &[0, 0]),
        ],
    },
    Life {
        name: "AUTO with a MIX, before the end by its duration",
        steps: &[
            Start(CLIP),
            LoadBg(BLUE_NEXT_IN_2),
            Shows(Clip, &[0]),
            Mixes(Blue, Clip, &[(0, 1, 1), (0, 2, 2), (0, 2, 2)]),
        ],
    },
    Life {
        name: "AUTO with a MIX that is longer than the clip",
        steps: &[
            Start(CLIP),
            LoadBg(BLUE_NEXT_IN_9),
            Mixes(Blue, Clip, &[(0, 0, 1), (0, 1, 2), (0, 2, 3), (0, 2, 4)]),
        ],
    },
    Life {
        name: "AUTO over a looped clip",
        steps: &[
            Start(LOOP),
            LoadBg(BLUE_NEXT),
            Shows(Clip, &[0, 1, 2, 0, 1]),
        ],
    },
    Life {
        name: "AUTO over a colour",
        steps: &[Start(RED), LoadBg(BLUE_NEXT), Shows(Red, &[0, 0, 0])],
    },
    Life {
        name: "AUTO over a route",
        steps: &[Start(ROUTE), LoadBg(BLUE_NEXT), Shows(Route, &[0, 0])],
    },
    Life {
        name: "AUTO over a paused clip",
        steps: &[
            Load(CLIP),
            LoadBg(BLUE_NEXT),
            Shows(Clip, &[0, 0]),
            Resume,
            Shows(Clip, &[0, 1, 2]),
            Shows(Blue, &[0]),
        ],
    },
];

/// When such a background starts.
pub static DUE_STARTS: [Life; 8] = [
    Life {
        name: "AUTO over a clip that is paused on its last frame",
        steps: &[
            Start(CLIP),
            LoadBg(BLUE_NEXT),
            Shows(Clip, &[0, 1]),
            Pause,
            Shows(Clip, &[2, 2]),
            Resume,
            Shows(Clip, &[2]),
            Shows(Blue, &[0]),
        ],
    },
    Life {
        name: "AUTO that was due in a pause",
        steps: &[
            Start(CLIP),
            LoadBg(BLUE_NEXT_IN_2),
            Shows(Clip, &[0]),
            Pause,
            Shows(Clip, &[1, 1]),
            Resume,
            Mixes(Blue, Clip, &[(0, 1, 1), (0, 2, 2)]),
        ],
    },
    Life {
        name: "AUTO over a clip that has ended",
        steps: &[
            Start(CLIP),
            Shows(Clip, &[0, 1, 2, 2]),
            LoadBg(BLUE_NEXT),
            Shows(Blue, &[0]),
        ],
    },
    Life {
        name: "AUTO over a clip that is about to end",
        steps: &[
            Start(CLIP),
            Shows(Clip, &[0, 1]),
            LoadBg(BLUE_NEXT_IN_2),
            Mixes(Blue, Clip, &[(0, 2, 1), (0, 2, 2)]),
        ],
    },
    Life {
        name: "AUTO over a part of a clip",
        steps: &[
            Start(PART),
            LoadBg(BLUE_NEXT),
            Shows(Clip, &[4, 5]),
            Shows(Blue, &[0]),
        ],
    },
    Life {
        name: "PLAY of a take with AUTO before it is due",
        steps: &[
            Start(CLIP),
            LoadBg(BLUE_NEXT),
            Shows(Clip, &[0]),
            Play,
            Shows(Blue, &[0]),
        ],
    },
    Life {
        name: "AUTO twice",
        steps: &[
            Start(CLIP),
            LoadBg(OTHER_NEXT),
            Shows(Clip, &[0, 1, 2]),
            Shows(Other, &[0]),
            LoadBg(BLUE_NEXT),
            Shows(Other, &[1]),
            Shows(Blue, &[0]),
        ],
    },
    Life {
        name: "a take without AUTO in place of one with it",
        steps: &[
            Start(CLIP),
            LoadBg(BLUE_NEXT),
            Shows(Clip, &[0]),
            LoadBg(RED),
            Shows(Clip, &[1, 2, 2]),
        ],
    },
];
