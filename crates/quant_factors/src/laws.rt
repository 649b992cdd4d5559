//! Laws of the definitions. Each function does nothing; its contract is the law.

ghost use Rattle.quant_factors.specs.QuantLaws.{FactorsRise, DequantisingKeepsTheMagnitude, NothingIsLostAtZero, TheErrorIsSmall, CoarserIsNoGreater};

/// For every index from 0 to 127 and every number: the factors rise; dequantising keeps at least the magnitude; at index
/// 0 nothing is lost; twice the error is at most the magnitude plus 2, where the quantised number isn't 0; and a coarser
/// index gives no greater magnitude.
pub fn quantisers_are_lawful()
    ensures rise { FactorsRise }
    ensures magnitude { DequantisingKeepsTheMagnitude }
    ensures lossless { NothingIsLostAtZero }
    ensures error { TheErrorIsSmall }
    ensures coarser { CoarserIsNoGreater }
{}
