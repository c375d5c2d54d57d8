//! How a call goes.
ghost use Rattle.std.specs.Prelude.{◌≡◌};
ghost use Rattle.editor_model.specs.Prims.{manner_of};
ghost use Rattle.ek_call.specs.Primitives.{prim_of};
ghost use Rattle.kernel_steps.specs.Blocks.{manner_as};

use ek_call::Primitive;
use kernel_steps::Manner;

/// Whether a call only asks, sets state, changes a text, or concerns handlers: hooks and processes.
pub(crate) fn manner(prim: Primitive) -> Manner
    ensures { manner_as result ≡ manner_of (prim_of prim) }
{
    match prim {
        Primitive::SetBuffer
        | Primitive::GetBufferCreate
        | Primitive::GenerateNewBuffer
        | Primitive::RenameBuffer
        | Primitive::SetBufferModifiedP
        | Primitive::SetBufferReadOnly
        | Primitive::GotoChar
        | Primitive::NarrowToRegion
        | Primitive::Widen
        | Primitive::MakeMarker
        | Primitive::PointMarker
        | Primitive::CopyMarker
        | Primitive::SetMarker
        | Primitive::SetMarkerInsertionType
        | Primitive::MakeOverlay
        | Primitive::OverlayPut
        | Primitive::MoveOverlay
        | Primitive::DeleteOverlay
        | Primitive::UndoBoundary
        | Primitive::UndoStart
        | Primitive::BufferDisableUndo
        | Primitive::BufferEnableUndo => Manner::SetsState,
        Primitive::Insert
        | Primitive::InsertAndInherit
        | Primitive::InsertBeforeMarkers
        | Primitive::InsertBeforeMarkersAndInherit
        | Primitive::InsertBufferSubstring
        | Primitive::DeleteRegion
        | Primitive::DeleteAndExtractRegion
        | Primitive::EraseBuffer
        | Primitive::PutTextProperty
        | Primitive::AddTextProperties
        | Primitive::RemoveTextProperties
        | Primitive::SetTextProperties
        | Primitive::UndoMore => Manner::ChangesText,
        Primitive::KillBuffer
        | Primitive::AddHook
        | Primitive::RemoveHook
        | Primitive::StartProcess
        | Primitive::ProcessList
        | Primitive::GetProcess
        | Primitive::ProcessName
        | Primitive::ProcessStatus
        | Primitive::ProcessBuffer
        | Primitive::ProcessMark
        | Primitive::ProcessLiveP
        | Primitive::ProcessExitStatus
        | Primitive::ProcessFilter
        | Primitive::ProcessSentinel
        | Primitive::SetProcessFilter
        | Primitive::SetProcessSentinel
        | Primitive::SetProcessBuffer
        | Primitive::ProcessSendString
        | Primitive::ProcessSendEof
        | Primitive::DeleteProcess
        | Primitive::AcceptProcessOutput
        | Primitive::SetProcessCodingSystem
        | Primitive::ProcessCodingSystem => Manner::ConcernsHandlers,
        _ => Manner::OnlyAsks,
    }
}
