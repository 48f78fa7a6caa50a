/// Ends a line.
pub const LINE_FEED: u8 = b'\n';

/// Ends a line too, alone or before a line feed.
pub const CARRIAGE_RETURN: u8 = b'\r';

/// Stands before and after a quoted field.
pub const QUOTE: u8 = b'"';

/// Stands between two fields.
pub const COMMA: u8 = b',';
