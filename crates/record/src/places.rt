// Where each part of a record stands: after those before it, by their widths, in the order of docs/LAYOUT.md.
pub const JOINED: usize = 0;

// The copy's own vote.
pub const VOTE: usize = JOINED + codec::BALLOT;

pub const STATUS: usize = VOTE + codec::BALLOT;

pub const COMMAND: usize = VOTE + codec::COMMAND_AT;

pub const KEY: usize = COMMAND + codec::OP;

pub const SECOND: usize = COMMAND + codec::SECOND_AT;

pub const EDIT: usize = COMMAND + codec::EDIT_AT;

pub const DEPS: usize = VOTE + codec::DEPS_AT;

pub const MARK: usize = VOTE + codec::VOTE;

pub const PHASE: usize = MARK + 1;

pub const SET: usize = PHASE + 1;

// Seven replies, laid out as votes.
pub const REPLIES: usize = SET + 1;

pub const LENGTH: usize = REPLIES + 7 * codec::VOTE;
