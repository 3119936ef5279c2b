// A law of streams. The function does nothing: its contract is the law.

ghost use Rattle.aud_lines.specs.Ties.Pieces.{PiecesLaw};

/// Of a stream that comes in pieces, however it is cut, the requests that are given for them, one behind the other, are those
/// of all its bytes, and those of a stream that goes on are the same and then the ones of what the feed has kept.
pub fn pieces_law()
    ensures { PiecesLaw }
{}
