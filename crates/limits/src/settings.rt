//! The greatest settings of a resolver.

/// The greatest number of proxies: this project's own.
pub const MAX_PROXIES: usize = 64;

const _: () = prove!(MAX_PROXIES == 64);

/// The greatest capacity of a lane, in items.
pub const MAX_CAPACITY: usize = 1_024;

const _: () = prove!(MAX_CAPACITY == 1_024);

/// The greatest window, in versions: this project's own.
pub const MAX_WINDOW: i64 = 1_099_511_627_776;

const _: () = prove!(MAX_WINDOW == 1_099_511_627_776);

/// The greatest limit on the boundaries of a step map: this project's own.
pub const MAX_LIMIT: usize = 16_777_216;

const _: () = prove!(MAX_LIMIT == 16_777_216);
