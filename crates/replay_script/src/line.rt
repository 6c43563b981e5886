//! What a line of a script says.

/// A line of a script. Nodes and modes stand by their numbers in the mode set, from 0.
#[derive(Clone, Copy, Debug, PartialEq, Eq)]
pub enum Line {
    /// `go N`: so many Advances without loss, from 0 to 1,000,000.
    Go(u64),
    /// `until beacon`: Advances without loss until the next entry is a beacon, possibly none.
    UntilBeacon,
    /// `lose NODE ..`: one Advance that these nodes lose. The bit of node `v` is `1 << v`.
    Lose(u64),
    /// `request MODE`: a request of the mode.
    Request(u32),
    /// `restart NODE`: a restart of the node, which is not the host.
    Restart(u32),
}
