//! The runs over disks that stop: each in stages that end with a commit.
use super::FIRST_CELLS;

/// A call with its reply.
pub(super) type Answered = (&'static str, &'static str);

/// A part of a run that ends with a commit.
pub(super) struct Stage {
    /// What comes before the commit, and asks nothing of the disk.
    pub(super) calls: &'static [Answered],
    pub(super) commit: Answered,
    /// What is answered where the disk stopped at the commit: nothing has changed, and the
    /// transaction is open until it is rolled back.
    pub(super) left: &'static [Answered],
    /// The cells that the commit leaves.
    pub(super) cells: &'static [&'static str],
}

const DONE: &str = r#"{"events":[],"ok":null}"#;

const IS_SO: &str = r#"{"events":[],"ok":true}"#;

const IS_NOT_SO: &str = r#"{"events":[],"ok":false}"#;

const IS_OPEN: &str = r#"{"error":{"name":"IllegalState","no":7,"why":"active"},"events":[]}"#;

const BEGIN: &str = r#"{"call":"begin","em":1}"#;

const BEGIN_OF_ANOTHER: &str = r#"{"call":"begin","em":2}"#;

const COMMIT: &str = r#"{"call":"commit","em":1}"#;

const COMMIT_OF_ANOTHER: &str = r#"{"call":"commit","em":2}"#;

const ROLLBACK: &str = r#"{"call":"rollback","em":1}"#;

const FIND: &str = r#"{"call":"find","em":1,"entity":"Person","key":[1]}"#;

// ---- a person is changed by two managers

/// She is persisted, another manager changes her name, and the first comes too late.
pub(super) const PERSON: &[Stage] = &[
    Stage {
        calls: &[
            (
                r#"{"call":"createEntityManager"}"#,
                r#"{"events":[],"ok":1}"#,
            ),
            (
                r#"{"call":"new","entity":"Person"}"#,
                r#"{"events":[],"ok":{"object":1}}"#,
            ),
            (
                r#"{"call":"set","object":1,"name":"name","value":"Ada"}"#,
                DONE,
            ),
            (BEGIN, DONE),
            (
                r#"{"call":"persist","em":1,"object":1}"#,
                r#"{"events":[["PrePersist",1]],"ok":null}"#,
            ),
        ],
        commit: (COMMIT, r#"{"events":[["PostPersist",1]],"ok":null}"#),
        left: &[
            (BEGIN, IS_OPEN),
            (r#"{"call":"contains","em":1,"object":1}"#, IS_SO),
            (ROLLBACK, DONE),
            (FIND, DONE),
        ],
        cells: &FIRST_CELLS,
    },
    Stage {
        calls: &[
            (
                r#"{"call":"createEntityManager"}"#,
                r#"{"events":[],"ok":2}"#,
            ),
            (
                r#"{"call":"find","em":2,"entity":"Person","key":[1]}"#,
                r#"{"events":[["PostLoad",2]],"ok":{"object":2}}"#,
            ),
            (
                r#"{"call":"set","object":2,"name":"name","value":"Bob"}"#,
                DONE,
            ),
            (BEGIN_OF_ANOTHER, DONE),
        ],
        commit: (
            COMMIT_OF_ANOTHER,
            r#"{"events":[["PreUpdate",2],["PostUpdate",2]],"ok":null}"#,
        ),
        left: &[
            (BEGIN_OF_ANOTHER, IS_OPEN),
            (
                r#"{"call":"get","object":2,"name":"name"}"#,
                r#"{"events":[],"ok":"Bob"}"#,
            ),
            (r#"{"call":"rollback","em":2}"#, DONE),
            (
                r#"{"call":"find","em":2,"entity":"Person","key":[1]}"#,
                r#"{"events":[["PostLoad",3]],"ok":{"object":3}}"#,
            ),
            (
                r#"{"call":"get","object":3,"name":"name"}"#,
                r#"{"events":[],"ok":"Ada"}"#,
            ),
        ],
        cells: BOB,
    },
    // A stale commit is refused before the disk is asked.
    Stage {
        calls: &[
            (
                r#"{"call":"set","object":1,"name":"name","value":"Cy"}"#,
                DONE,
            ),
            (BEGIN, DONE),
        ],
        commit: (
            COMMIT,
            r#"{"error":{"name":"Rollback","no":14,"why":"OptimisticLock"},"events":[["PreUpdate",1]]}"#,
        ),
        left: &[],
        cells: BOB,
    },
];

const BOB: &[&str] = &[
    "0, 018000000000000001, 0, 018000000000000002",
    "1, 018000000000000001, 0, 02506572736f6e",
    "1, 018000000000000001, 1, 018000000000000001",
    "1, 018000000000000001, 2, 02426f62",
];

// ---- a person goes with her orders

/// A person is persisted with two orders, and removed with them.
pub(super) const ORDERS: &[Stage] = &[
    Stage {
        calls: &[
            (
                r#"{"call":"createEntityManager"}"#,
                r#"{"events":[],"ok":1}"#,
            ),
            (
                r#"{"call":"new","entity":"Person"}"#,
                r#"{"events":[],"ok":{"object":1}}"#,
            ),
            (
                r#"{"call":"new","entity":"Order"}"#,
                r#"{"events":[],"ok":{"object":2}}"#,
            ),
            (
                r#"{"call":"set","object":2,"name":"number","value":10}"#,
                DONE,
            ),
            (
                r#"{"call":"set","object":2,"name":"amount","value":5}"#,
                DONE,
            ),
            (
                r#"{"call":"set","object":2,"name":"person","value":{"object":1}}"#,
                DONE,
            ),
            (
                r#"{"call":"new","entity":"Order"}"#,
                r#"{"events":[],"ok":{"object":3}}"#,
            ),
            (
                r#"{"call":"set","object":3,"name":"number","value":11}"#,
                DONE,
            ),
            (
                r#"{"call":"set","object":3,"name":"amount","value":7}"#,
                DONE,
            ),
            (
                r#"{"call":"set","object":3,"name":"person","value":{"object":1}}"#,
                DONE,
            ),
            (
                r#"{"call":"add","object":1,"name":"orders","member":2}"#,
                DONE,
            ),
            (
                r#"{"call":"add","object":1,"name":"orders","member":3}"#,
                DONE,
            ),
            (
                r#"{"call":"add","object":1,"name":"orders","member":2}"#,
                DONE,
            ),
            (BEGIN, DONE),
            (
                r#"{"call":"persist","em":1,"object":1}"#,
                r#"{"events":[["PrePersist",1],["PrePersist",2],["PrePersist",3]],"ok":null}"#,
            ),
        ],
        commit: (
            COMMIT,
            r#"{"events":[["PostPersist",1],["PostPersist",2],["PostPersist",3]],"ok":null}"#,
        ),
        left: &[
            (BEGIN, IS_OPEN),
            (r#"{"call":"contains","em":1,"object":3}"#, IS_SO),
            (ROLLBACK, DONE),
            (
                r#"{"call":"find","em":1,"entity":"Order","key":[10]}"#,
                DONE,
            ),
        ],
        cells: &[
            "0, 018000000000000001, 0, 018000000000000002",
            "1, 018000000000000001, 0, 02506572736f6e",
            "1, 018000000000000001, 1, 018000000000000000",
            "2, 01800000000000000a, 0, 024f72646572",
            "2, 01800000000000000a, 1, 018000000000000005",
            "2, 01800000000000000a, 2, 04018000000000000001",
            "2, 01800000000000000b, 0, 024f72646572",
            "2, 01800000000000000b, 1, 018000000000000007",
            "2, 01800000000000000b, 2, 04018000000000000001",
        ],
    },
    Stage {
        calls: &[
            (
                r#"{"call":"get","object":1,"name":"orders"}"#,
                r#"{"events":[],"ok":[{"object":2},{"object":3},{"object":2}]}"#,
            ),
            (r#"{"call":"clear","em":1}"#, DONE),
            (FIND, r#"{"events":[["PostLoad",4]],"ok":{"object":4}}"#),
            (BEGIN, DONE),
            (
                r#"{"call":"remove","em":1,"object":4}"#,
                r#"{"events":[["PreRemove",4],["PostLoad",5],["PreRemove",5],["PostLoad",6],["PreRemove",6]],"ok":null}"#,
            ),
        ],
        commit: (
            COMMIT,
            r#"{"events":[["PostRemove",4],["PostRemove",5],["PostRemove",6]],"ok":null}"#,
        ),
        left: &[
            (BEGIN, IS_OPEN),
            (r#"{"call":"contains","em":1,"object":4}"#, IS_NOT_SO),
            (ROLLBACK, DONE),
            (FIND, r#"{"events":[["PostLoad",7]],"ok":{"object":7}}"#),
        ],
        cells: &["0, 018000000000000001, 0, 018000000000000002"],
    },
];
