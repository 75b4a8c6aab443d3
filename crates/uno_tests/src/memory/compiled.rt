//! Files of UNOIDL.

use idl_compile::{CompileError, compile};
use std::alloc::Global;
use uno_base::NoMemory;

/// Files with an entity of most kinds, which use one another.
const TYPES: &[u8] =
    b"module t { interface X; typedef sequence<X> Many; enum E { A, B = K::Most }; constants K { const long Most = 2; };
struct D { Many All; E Kind; }; struct F : D { long Last; }; exception G : com::sun::star::uno::Exception { F Why; }; };";

const FACES: &[u8] =
    b"module t { interface X { interface Y; [attribute] F Size { set raises (G); }; void f([in] Many a) raises (G); };
interface Y { [oneway] void g(); }; service S : X { make([in] any ... a) raises (G); }; singleton T : X; };";

/// Whether the files are compiled, which are right.
pub(crate) fn are_compiled(alloc: Global) -> Result<bool, NoMemory> {
    match compile(alloc, &[TYPES, FACES]) {
        Ok(registry) => Ok(registry.find("t.F").is_some()),
        Err(CompileError::NoMemory) => Err(NoMemory),
        Err(CompileError::Refused(..)) => Ok(false),
    }
}
