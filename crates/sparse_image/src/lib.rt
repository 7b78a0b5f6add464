//! Android sparse and raw images (sparse_format.h, version 1.0): checking them, writing them as runs,
//! and splitting them into pieces that a device with a small download buffer takes.
#![tactic(auto)]

ghost use Rattle.sparse_image.specs.Laws.{WalkAgrees, ImageLength, PieceImage, PieceLength, PiecesPut, PiecesFront, PiecesBytes, RunsPut, RunsFront, WholeImage};

pub mod chunk;
pub mod errors;
pub mod image_runs;
pub mod index;
pub mod out;
pub mod piece;
pub mod pieces;
mod puts;
mod reach;
mod reads;
mod rest;
pub mod runs;
pub mod source;
mod spell;
mod walk;
mod window;

/// The laws of the definitions.
pub fn laws()
    ensures walk_agrees { WalkAgrees }
    ensures image_length { ImageLength }
    ensures piece_image { PieceImage }
    ensures piece_length { PieceLength }
    ensures pieces_put { PiecesPut }
    ensures pieces_front { PiecesFront }
    ensures pieces_bytes { PiecesBytes }
    ensures runs_put { RunsPut }
    ensures runs_front { RunsFront }
    ensures whole_image { WholeImage }
{}
