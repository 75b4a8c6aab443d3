//! Terms of plans as lists of pieces, and how one is read, tested and fitted to a type piece by piece, whatever its depth: definitions and their laws.
#![tactic(auto)]
