//! The texts that make the six tables, as the store keeps them and the sqlite3 command line shows
//! them.

pub const ABOUT: &str =
    "CREATE TABLE about(one INTEGER PRIMARY KEY CHECK (one = 1), schema_no INTEGER NOT NULL) STRICT";

pub const MIRRORS: &str =
    "CREATE TABLE mirrors(name TEXT PRIMARY KEY NOT NULL, mid INTEGER NOT NULL UNIQUE,
  total INTEGER NOT NULL, genid INTEGER NOT NULL, syncid INTEGER NOT NULL, slice INTEGER NOT NULL,
  balance INTEGER NOT NULL, mediasize INTEGER NOT NULL, mflags INTEGER NOT NULL) STRICT";

pub const COMPONENTS: &str =
    "CREATE TABLE components(prov TEXT PRIMARY KEY NOT NULL, mirror TEXT NOT NULL REFERENCES mirrors(name),
  did INTEGER NOT NULL, syncid INTEGER NOT NULL, priority INTEGER NOT NULL, sync_offset INTEGER NOT NULL,
  dflags INTEGER NOT NULL, hard INTEGER NOT NULL, provsize INTEGER NOT NULL, UNIQUE (mirror, did)) STRICT";

pub const INTENTS: &str =
    "CREATE TABLE intents(ord INTEGER PRIMARY KEY, kind INTEGER NOT NULL, prov TEXT NOT NULL,
  source TEXT NOT NULL, first_sector INTEGER NOT NULL, end_sector INTEGER NOT NULL) STRICT";

pub const COMMANDS: &str =
    "CREATE TABLE commands(call_key TEXT PRIMARY KEY NOT NULL, seq INTEGER NOT NULL UNIQUE,
  words TEXT NOT NULL, copied INTEGER NOT NULL, of_total INTEGER NOT NULL) STRICT";

pub const PATCHES: &str =
    "CREATE TABLE patches(one INTEGER PRIMARY KEY CHECK (one = 1), bytes BLOB NOT NULL) STRICT";
