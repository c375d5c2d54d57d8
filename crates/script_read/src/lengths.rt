//! Calls that scripts often make, so that their names are found without going through all.
use ek_call::Prim;

/// Often made calls whose names have so many letters.
pub(crate) fn of_length(length: usize) -> &'static [Prim] {
    match length {
        5 => &[Prim::Point, Prim::Widen],
        6 => &[Prim::Insert],
        8 => &[Prim::AddHook],
        9 => &[
            Prim::GotoChar,
            Prim::PointMin,
            Prim::PointMax,
            Prim::UndoMore,
        ],
        10 => &[
            Prim::SetBuffer,
            Prim::GetBuffer,
            Prim::CharAfter,
            Prim::SetMarker,
        ],
        11 => &[
            Prim::CopyMarker,
            Prim::MakeMarker,
            Prim::OverlayPut,
            Prim::OverlayGet,
        ],
        12 => &[Prim::MakeOverlay, Prim::PointMarker, Prim::ProcessMark],
        13 => &[
            Prim::DeleteRegion,
            Prim::UndoBoundary,
            Prim::BufferString,
            Prim::StartProcess,
        ],
        14 => &[
            Prim::CurrentBuffer,
            Prim::ProcessBuffer,
            Prim::DeleteProcess,
        ],
        15 => &[Prim::MarkerPosition],
        16 => &[Prim::BufferSubstring, Prim::NarrowToRegion],
        17 => &[
            Prim::GetBufferCreate,
            Prim::GetTextProperty,
            Prim::PutTextProperty,
        ],
        18 => &[Prim::InsertAndInherit, Prim::SetProcessFilter],
        19 => &[
            Prim::AddTextProperties,
            Prim::SetTextProperties,
            Prim::ProcessSendString,
        ],
        20 => &[Prim::SetProcessSentinel],
        21 => &[Prim::AcceptProcessOutput, Prim::InsertBeforeMarkers],
        23 => &[Prim::InsertBufferSubstring],
        25 => &[Prim::DeleteAndExtractRegion],
        _ => &[],
    }
}
