//! The commands that call another handler, and their bytes.
ghost use Rattle.std.specs.Prelude.{◌≡◌};

use bytes::Bytes;
use journal_values::Header;
use std::alloc::{AllocError, Global};
use wire::{Fault, Items, Text, Wire};

/// Which handler is called, and with what.
#[derive(Drop)]
pub struct CallRequest {
    pub service_name: Text,
    pub handler_name: Text,
    pub key: Text,
    pub idempotency_key: Option<Text>,
    pub scope: Option<Text>,
    pub limit_key: Option<Text>,
    pub headers: Items<Header>,
    pub parameter: Bytes,
    pub invocation_id_notification_idx: u32,
    pub name: Text,
}

#[derive(Drop)]
pub struct CallCommand {
    pub request: CallRequest,
    pub result_completion_id: u32,
}

/// A call whose result nobody waits for.
#[derive(Drop)]
pub struct OneWayCallCommand {
    pub request: CallRequest,
    pub invoke_time: u64,
}

type Parts = (
    Text,
    (
        Text,
        (Text, (Option<Text>, (Option<Text>, (Option<Text>, Rest)))),
    ),
);

type Rest = (Items<Header>, (Bytes, (u32, Text)));

#[tactic(auto, unfolding(crate::specs::Encoding::call_request))]
impl Wire for CallRequest {
    ghost use Rattle.journal_calls.specs.Bodies.{call_request_format};

    ghost format = { call_request_format };

    fn put(&self, out: &mut Vec<u8>) -> Result<(), AllocError> {
        self.service_name.put(out)?;
        self.handler_name.put(out)?;
        self.key.put(out)?;
        self.idempotency_key.put(out)?;
        self.scope.put(out)?;
        self.limit_key.put(out)?;
        self.headers.put(out)?;
        self.parameter.put(out)?;
        self.invocation_id_notification_idx.put(out)?;
        self.name.put(out)
    }

    fn get(alloc: Global, input: &mut Bytes) -> Result<CallRequest, Fault> {
        let (service_name, (handler_name, (key, (idempotency_key, (scope, (limit_key, rest)))))) =
            Parts::get(alloc, input)?;
        let (headers, (parameter, (invocation_id_notification_idx, name))) = rest;
        Ok(CallRequest {
            service_name,
            handler_name,
            key,
            idempotency_key,
            scope,
            limit_key,
            headers,
            parameter,
            invocation_id_notification_idx,
            name,
        })
    }
}

#[tactic(auto, unfolding(crate::specs::Encoding::call_body))]
impl Wire for CallCommand {
    ghost use Rattle.journal_calls.specs.Bodies.{call_format};

    ghost format = { call_format };

    fn put(&self, out: &mut Vec<u8>) -> Result<(), AllocError> {
        self.request.put(out)?;
        self.result_completion_id.put(out)
    }

    fn get(alloc: Global, input: &mut Bytes) -> Result<CallCommand, Fault> {
        let (request, result_completion_id) = <(CallRequest, u32)>::get(alloc, input)?;
        Ok(CallCommand {
            request,
            result_completion_id,
        })
    }
}

#[tactic(auto, unfolding(crate::specs::Encoding::one_way_call))]
impl Wire for OneWayCallCommand {
    ghost use Rattle.journal_calls.specs.Bodies.{one_way_call_format};

    ghost format = { one_way_call_format };

    fn put(&self, out: &mut Vec<u8>) -> Result<(), AllocError> {
        self.request.put(out)?;
        self.invoke_time.put(out)
    }

    fn get(alloc: Global, input: &mut Bytes) -> Result<OneWayCallCommand, Fault> {
        let (request, invoke_time) = <(CallRequest, u64)>::get(alloc, input)?;
        Ok(OneWayCallCommand {
            request,
            invoke_time,
        })
    }
}
