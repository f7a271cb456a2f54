//! Scripts, and what is written of them.

/// A price for an hour.
pub(crate) const PRICE: &[u8] =
    b"edit 2024-01-01T00:00:00Z create program p1 {\"programName\":\"P\"}\n\
edit 2024-01-01T00:00:00Z create ven v1 {\"venName\":\"V\"}\n\
edit 2024-01-01T00:00:00Z create resource r1 {\"resourceName\":\"R\",\"venID\":\"v1\"}\n\
edit 2024-01-01T00:00:00Z create event e1 {\"programID\":\"p1\",\"intervals\":[{\"id\":0,\"intervalPeriod\":{\"start\":\"2024-01-01T00:00:00Z\",\"duration\":\"PT1H\"},\"payloads\":[{\"type\":\"PRICE\",\"values\":[0.17]}]}]}\n\
publish\n\
at r1 PRICE 2024-01-01T00:30:00Z\n";

/// What is written of all its lines but the last.
pub(crate) const PRICE_EDITED: &[u8] = b"ok 1\nok 2\nok 3\nok 4\npublished 1 version 4\n";

pub(crate) const PRICE_TOLD: &[u8] = b"ok 1\nok 2\nok 3\nok 4\npublished 1 version 4\n\
version 4 event e1 interval 0 until 2024-01-01T01:00:00Z values 0.17\n";

/// An event for one of two resources, which goes and comes again.
pub(crate) const TARGET: &[u8] =
    b"edit 2024-01-01T00:00:00Z create program p1 {\"programName\":\"P\"}\n\
edit 2024-01-01T00:00:00Z create ven v1 {\"venName\":\"V\"}\n\
edit 2024-01-01T00:00:00Z create resource r1 {\"resourceName\":\"R\",\"venID\":\"v1\"}\n\
edit 2024-01-01T00:00:00Z create resource r2 {\"resourceName\":\"Q\",\"venID\":\"v1\"}\n\
edit 2024-01-01T00:00:00Z create event e1 {\"programID\":\"p1\",\"intervals\":[{\"id\":0,\"intervalPeriod\":{\"start\":\"2024-01-01T00:00:00Z\",\"duration\":\"PT2H\"},\"payloads\":[{\"type\":\"PRICE\",\"values\":[10]},{\"type\":\"X_LOAD\",\"values\":[\"a b\",true,{\"x\":1,\"y\":2.50}]}]}],\"targets\":[{\"type\":\"RESOURCE_NAME\",\"values\":[\"R\"]}]}\n\
publish\n\
roll PRICE 2024-01-01T00:30:00Z\n\
types r1\n\
types r2\n\
at r1 X_LOAD 2024-01-01T00:30:00Z\n\
edit 2024-01-01T00:00:00Z delete resource r1\n\
edit 2024-01-01T00:00:00Z create resource r1 {\"resourceName\":\"R\",\"venID\":\"v1\"}\n\
publish\n\
roll PRICE 2024-01-01T00:30:00Z\n";

pub(crate) const TARGET_TOLD: &[u8] = b"ok 1\nok 2\nok 3\nok 4\nok 5\npublished 1 version 5\n\
version 5\nr1 event e1 interval 0 until 2024-01-01T02:00:00Z values 10\nr2 none until end\n.\n\
version 5\nPRICE\nX_LOAD\n.\n\
version 5\n.\n\
version 5 event e1 interval 0 until 2024-01-01T02:00:00Z values \"a b\" true (1,2.5)\n\
ok 6\nok 7\npublished 2 version 7\n\
version 7\nr2 none until end\nr1 event e1 interval 0 until 2024-01-01T02:00:00Z values 10\n.\n";

/// What three readers tell of the price.
pub(crate) const PRICE_THREE_TIMES: &[u8] = b"ok 1\nok 2\nok 3\nok 4\npublished 1 version 4\n\
reader 0\nversion 4 event e1 interval 0 until 2024-01-01T01:00:00Z values 0.17\n\
reader 1\nversion 4 event e1 interval 0 until 2024-01-01T01:00:00Z values 0.17\n\
reader 2\nversion 4 event e1 interval 0 until 2024-01-01T01:00:00Z values 0.17\n";

/// The price, with an edit behind the query.
pub(crate) const MEETING: &[u8] =
    b"edit 2024-01-01T00:00:00Z create program p1 {\"programName\":\"P\"}\n\
edit 2024-01-01T00:00:00Z create ven v1 {\"venName\":\"V\"}\n\
edit 2024-01-01T00:00:00Z create resource r1 {\"resourceName\":\"R\",\"venID\":\"v1\"}\n\
edit 2024-01-01T00:00:00Z create event e1 {\"programID\":\"p1\",\"intervals\":[{\"id\":0,\"intervalPeriod\":{\"start\":\"2024-01-01T00:00:00Z\",\"duration\":\"PT1H\"},\"payloads\":[{\"type\":\"PRICE\",\"values\":[0.17]}]}]}\n\
publish\n\
at r1 PRICE 2024-01-01T00:30:00Z\n\
edit 2024-01-01T00:00:00Z create ven v2 {\"venName\":\"W\"}\n";

/// What comes once readers have the first query.
pub(crate) const LATE_QUERY: &[u8] = b"at r1 PRICE 2024-01-01T01:00:00Z\n";

/// What two readers tell of both queries.
pub(crate) const MEETING_TOLD: &[u8] = b"ok 1\nok 2\nok 3\nok 4\npublished 1 version 4\nok 5\n\
reader 0\nversion 4 event e1 interval 0 until 2024-01-01T01:00:00Z values 0.17\nversion 4 none until end\n\
reader 1\nversion 4 event e1 interval 0 until 2024-01-01T01:00:00Z values 0.17\nversion 4 none until end\n";
