//! Super metadata (liblp metadata_format.h, versions 10.0 to 10.2): the geometry of super and the
//! table of its logical partitions, read exactly and written in their one spelling.
#![tactic(auto)]

ghost use Rattle.super_meta.specs.Laws.{GeometryRead, GeometrySpelled, OneGeometry, TableRead, TableSpelled, OneTable};
ghost use Rattle.super_meta.specs.Laws.{ImageRead, ImageSpelled, SectorsOnce, TakenInTurn, ExtentsJoined, TablesFlaw};

mod checks;
mod entries;
pub mod errors;
pub mod geometry;
mod header;
pub mod held;
pub mod image;
mod put;
pub mod reading;
mod sealed;
pub mod table;
pub mod writing;

/// The laws of the definitions.
pub fn laws()
    ensures geometry_read { GeometryRead }
    ensures geometry_spelled { GeometrySpelled }
    ensures one_geometry { OneGeometry }
    ensures table_read { TableRead }
    ensures table_spelled { TableSpelled }
    ensures one_table { OneTable }
    ensures image_read { ImageRead }
    ensures image_spelled { ImageSpelled }
    ensures sectors_once { SectorsOnce }
    ensures taken_in_turn { TakenInTurn }
    ensures extents_joined { ExtentsJoined }
    ensures tables_flaw { TablesFlaw }
{}
