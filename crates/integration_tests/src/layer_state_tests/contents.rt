//! Lives without transitions and automatic starts: what is shown, and what each command does.
use super::lives::Source::{Blue, Clip, Other, Red, Route};
use super::lives::Step::{Clear, Load, LoadBg, Nothing, Pause, Play, Resume, Shows, Start, Stop};
use super::lives::{
    BLUE, BLUE_NEXT, CLIP, CLIP_IN_2, LOOP, LOOPED_PART, Life, OTHER, PART, RED, ROUTE,
};

/// Which frames of a content are shown.
pub static PICTURES: [Life; 9] = [
    Life {
        name: "a place that holds nothing",
        steps: &[Nothing(2)],
    },
    Life {
        name: "a background alone is not shown",
        steps: &[LoadBg(CLIP), Nothing(2)],
    },
    Life {
        name: "PLAY on a place that holds nothing",
        steps: &[Play, Nothing(1), LoadBg(CLIP), Nothing(1)],
    },
    Life {
        name: "a clip runs, and stays on its last frame",
        steps: &[Start(CLIP), Shows(Clip, &[0, 1, 2, 2, 2])],
    },
    Life {
        name: "a looped clip begins anew",
        steps: &[Start(LOOP), Shows(Clip, &[0, 1, 2, 0, 1, 2, 0])],
    },
    Life {
        name: "a part of a clip",
        steps: &[Start(PART), Shows(Clip, &[4, 5, 5])],
    },
    Life {
        name: "a part of a clip, looped",
        steps: &[Start(LOOPED_PART), Shows(Clip, &[4, 5, 4, 5])],
    },
    Life {
        name: "a colour has one picture",
        steps: &[Start(RED), Shows(Red, &[0, 0])],
    },
    Life {
        name: "a route has one picture",
        steps: &[Start(ROUTE), Shows(Route, &[0, 0])],
    },
];

/// What LOAD, LOADBG and PLAY do.
pub static LOADS_AND_PLAYS: [Life; 9] = [
    Life {
        name: "LOAD shows the first picture, paused",
        steps: &[
            Load(CLIP),
            Shows(Clip, &[0, 0]),
            Resume,
            Shows(Clip, &[0, 1, 2]),
        ],
    },
    Life {
        name: "PLAY without a background unpauses",
        steps: &[Load(CLIP), Shows(Clip, &[0]), Play, Shows(Clip, &[0, 1])],
    },
    Life {
        name: "LOAD empties the background",
        steps: &[LoadBg(BLUE), Load(CLIP), Play, Shows(Clip, &[0, 1])],
    },
    Life {
        name: "LOAD drops the transition",
        steps: &[
            Start(RED),
            Shows(Red, &[0]),
            Load(CLIP_IN_2),
            Shows(Clip, &[0]),
            Play,
            Shows(Clip, &[0, 1]),
        ],
    },
    Life {
        name: "LOAD in place of a clip that runs",
        steps: &[
            Start(CLIP),
            Shows(Clip, &[0, 1]),
            Load(OTHER),
            Shows(Other, &[0, 0]),
        ],
    },
    Life {
        name: "LOADBG in place of a background",
        steps: &[LoadBg(RED), LoadBg(BLUE), Play, Shows(Blue, &[0])],
    },
    Life {
        name: "LOADBG leaves what is shown",
        steps: &[
            Start(CLIP),
            Shows(Clip, &[0]),
            LoadBg(BLUE),
            Shows(Clip, &[1, 2]),
        ],
    },
    Life {
        name: "PLAY starts the clip that runs anew",
        steps: &[
            Start(CLIP),
            Shows(Clip, &[0, 1]),
            Start(CLIP),
            Shows(Clip, &[0, 1]),
        ],
    },
    Life {
        name: "PLAY starts a background unpaused",
        steps: &[Load(RED), Start(CLIP), Shows(Clip, &[0, 1])],
    },
];

/// What PAUSE, RESUME, STOP and CLEAR do.
pub static PAUSES_AND_STOPS: [Life; 8] = [
    Life {
        name: "a paused clip shows the picture that comes next",
        steps: &[
            Start(CLIP),
            Shows(Clip, &[0]),
            Pause,
            Shows(Clip, &[1, 1]),
            Resume,
            Shows(Clip, &[1, 2]),
        ],
    },
    Life {
        name: "PAUSE and RESUME of nothing",
        steps: &[
            Pause,
            Nothing(1),
            Resume,
            Pause,
            Start(CLIP),
            Shows(Clip, &[0, 1]),
        ],
    },
    Life {
        name: "PAUSE twice, and RESUME once",
        steps: &[
            Start(CLIP),
            Pause,
            Pause,
            Shows(Clip, &[0, 0]),
            Resume,
            Shows(Clip, &[0, 1]),
        ],
    },
    Life {
        name: "RESUME of a clip that runs",
        steps: &[Start(CLIP), Shows(Clip, &[0]), Resume, Shows(Clip, &[1, 2])],
    },
    Life {
        name: "STOP leaves the background",
        steps: &[
            Start(CLIP),
            LoadBg(BLUE),
            Shows(Clip, &[0]),
            Stop,
            Nothing(2),
            Play,
            Shows(Blue, &[0]),
        ],
    },
    Life {
        name: "STOP of nothing",
        steps: &[Stop, Nothing(1), LoadBg(RED), Stop, Play, Shows(Red, &[0])],
    },
    Life {
        name: "a stopped clip does not go on",
        steps: &[
            Start(CLIP),
            Shows(Clip, &[0]),
            Stop,
            Play,
            Resume,
            Nothing(1),
        ],
    },
    Life {
        name: "CLEAR removes both",
        steps: &[
            Start(CLIP),
            LoadBg(BLUE_NEXT),
            Shows(Clip, &[0]),
            Clear,
            Nothing(1),
            Play,
            Nothing(1),
        ],
    },
];
