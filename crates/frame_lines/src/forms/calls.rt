//! The commands on other invocations, signals, promises, runs and time.
ghost use Rattle.frame_lines.specs.Forms.{call_fields, call_request_fields, complete_awakeable_fields, complete_promise_fields, invocation_fields, one_way_call_fields, promise_fields, run_fields, send_signal_fields, sleep_fields};

use crate::forms::Form;
use bytes::Bytes;
use frame_values::fields::{print_field, values_of};
use journal_protocol::{
    CallCommand, CallRequest, CompleteAwakeableCommand, CompletePromiseCommand, Header,
    InvocationCommand, InvocationTarget, OneWayCallCommand, PromiseCommand, RunCommand,
    SendSignalCommand, Signal, SignalResult, SleepCommand, ValueOrFailure,
};
use lines::line::Line;
use plain::{Fault, Items, Text};
use std::alloc::{AllocError, Global};

impl Form for SleepCommand {
    ghost fields = { sleep_fields };

    fn print(&self, line: &mut Line, is_first: bool) -> Result<bool, AllocError> {
        let is_first = print_field(line, is_first, "wake_up_time", &self.wake_up_time)?;
        let is_first = print_field(
            line,
            is_first,
            "result_completion_id",
            &self.result_completion_id,
        )?;
        print_field(line, is_first, "name", &self.name)
    }

    fn read(alloc: Global, words: &[&[u8]]) -> Result<SleepCommand, Fault> {
        let names = ["wake_up_time=", "result_completion_id=", "name="];
        let (wake_up_time, (result_completion_id, (name, ()))) = values_of::<
            (u64, (u32, (Text, ()))),
        >(alloc, words, &names)?;
        Ok(SleepCommand {
            wake_up_time,
            result_completion_id,
            name,
        })
    }
}

impl Form for CallRequest {
    ghost fields = { call_request_fields };

    fn print(&self, line: &mut Line, is_first: bool) -> Result<bool, AllocError> {
        let is_first = print_field(line, is_first, "service_name", &self.service_name)?;
        let is_first = print_field(line, is_first, "handler_name", &self.handler_name)?;
        let is_first = print_field(line, is_first, "key", &self.key)?;
        let is_first = print_field(line, is_first, "idempotency_key", &self.idempotency_key)?;
        let is_first = print_field(line, is_first, "scope", &self.scope)?;
        let is_first = print_field(line, is_first, "limit_key", &self.limit_key)?;
        let is_first = print_field(line, is_first, "headers", &self.headers)?;
        let is_first = print_field(line, is_first, "parameter", &self.parameter)?;
        let is_first = print_field(
            line,
            is_first,
            "invocation_id_notification_idx",
            &self.invocation_id_notification_idx,
        )?;
        print_field(line, is_first, "name", &self.name)
    }

    fn read(alloc: Global, words: &[&[u8]]) -> Result<CallRequest, Fault> {
        let names = [
            "service_name=",
            "handler_name=",
            "key=",
            "idempotency_key=",
            "scope=",
            "limit_key=",
            "headers=",
            "parameter=",
            "invocation_id_notification_idx=",
            "name=",
        ];
        let (
            service_name,
            (
                handler_name,
                (
                    key,
                    (
                        idempotency_key,
                        (
                            scope,
                            (
                                limit_key,
                                (
                                    headers,
                                    (parameter, (invocation_id_notification_idx, (name, ()))),
                                ),
                            ),
                        ),
                    ),
                ),
            ),
        ) = values_of::<
            (
                Text,
                (
                    Text,
                    (
                        Text,
                        (
                            Option<Text>,
                            (
                                Option<Text>,
                                (Option<Text>, (Items<Header>, (Bytes, (u32, (Text, ()))))),
                            ),
                        ),
                    ),
                ),
            ),
        >(alloc, words, &names)?;
        Ok(CallRequest {
            service_name,
            handler_name,
            key,
            idempotency_key,
            scope,
            limit_key,
            headers,
            parameter,
            invocation_id_notification_idx,
            name,
        })
    }
}

impl Form for CallCommand {
    ghost fields = { call_fields };

    fn print(&self, line: &mut Line, is_first: bool) -> Result<bool, AllocError> {
        let is_first = self.request.print(line, is_first)?;
        print_field(
            line,
            is_first,
            "result_completion_id",
            &self.result_completion_id,
        )
    }

    fn read(alloc: Global, words: &[&[u8]]) -> Result<CallCommand, Fault> {
        let names = [
            "service_name=",
            "handler_name=",
            "key=",
            "idempotency_key=",
            "scope=",
            "limit_key=",
            "headers=",
            "parameter=",
            "invocation_id_notification_idx=",
            "name=",
            "result_completion_id=",
        ];
        let (
            service_name,
            (
                handler_name,
                (
                    key,
                    (
                        idempotency_key,
                        (
                            scope,
                            (
                                limit_key,
                                (
                                    headers,
                                    (
                                        parameter,
                                        (
                                            invocation_id_notification_idx,
                                            (name, (result_completion_id, ())),
                                        ),
                                    ),
                                ),
                            ),
                        ),
                    ),
                ),
            ),
        ) = values_of::<
            (
                Text,
                (
                    Text,
                    (
                        Text,
                        (
                            Option<Text>,
                            (
                                Option<Text>,
                                (
                                    Option<Text>,
                                    (Items<Header>, (Bytes, (u32, (Text, (u32, ()))))),
                                ),
                            ),
                        ),
                    ),
                ),
            ),
        >(alloc, words, &names)?;
        Ok(CallCommand {
            request: CallRequest {
                service_name,
                handler_name,
                key,
                idempotency_key,
                scope,
                limit_key,
                headers,
                parameter,
                invocation_id_notification_idx,
                name,
            },
            result_completion_id,
        })
    }
}

impl Form for OneWayCallCommand {
    ghost fields = { one_way_call_fields };

    fn print(&self, line: &mut Line, is_first: bool) -> Result<bool, AllocError> {
        let is_first = self.request.print(line, is_first)?;
        print_field(line, is_first, "invoke_time", &self.invoke_time)
    }

    fn read(alloc: Global, words: &[&[u8]]) -> Result<OneWayCallCommand, Fault> {
        let names = [
            "service_name=",
            "handler_name=",
            "key=",
            "idempotency_key=",
            "scope=",
            "limit_key=",
            "headers=",
            "parameter=",
            "invocation_id_notification_idx=",
            "name=",
            "invoke_time=",
        ];
        let (
            service_name,
            (
                handler_name,
                (
                    key,
                    (
                        idempotency_key,
                        (
                            scope,
                            (
                                limit_key,
                                (
                                    headers,
                                    (
                                        parameter,
                                        (invocation_id_notification_idx, (name, (invoke_time, ()))),
                                    ),
                                ),
                            ),
                        ),
                    ),
                ),
            ),
        ) = values_of::<
            (
                Text,
                (
                    Text,
                    (
                        Text,
                        (
                            Option<Text>,
                            (
                                Option<Text>,
                                (
                                    Option<Text>,
                                    (Items<Header>, (Bytes, (u32, (Text, (u64, ()))))),
                                ),
                            ),
                        ),
                    ),
                ),
            ),
        >(alloc, words, &names)?;
        Ok(OneWayCallCommand {
            request: CallRequest {
                service_name,
                handler_name,
                key,
                idempotency_key,
                scope,
                limit_key,
                headers,
                parameter,
                invocation_id_notification_idx,
                name,
            },
            invoke_time,
        })
    }
}

impl Form for CompleteAwakeableCommand {
    ghost fields = { complete_awakeable_fields };

    fn print(&self, line: &mut Line, is_first: bool) -> Result<bool, AllocError> {
        let is_first = print_field(line, is_first, "awakeable_id", &self.awakeable_id)?;
        print_field(line, is_first, "result", &self.result)
    }

    fn read(alloc: Global, words: &[&[u8]]) -> Result<CompleteAwakeableCommand, Fault> {
        let names = ["awakeable_id=", "result="];
        let (awakeable_id, (result, ())) = values_of::<(Text, (ValueOrFailure, ()))>(
            alloc, words, &names,
        )?;
        Ok(CompleteAwakeableCommand {
            awakeable_id,
            result,
        })
    }
}

impl Form for SendSignalCommand {
    ghost fields = { send_signal_fields };

    fn print(&self, line: &mut Line, is_first: bool) -> Result<bool, AllocError> {
        let is_first = print_field(
            line,
            is_first,
            "target_invocation_id",
            &self.target_invocation_id,
        )?;
        let is_first = print_field(line, is_first, "signal", &self.signal)?;
        print_field(line, is_first, "result", &self.result)
    }

    fn read(alloc: Global, words: &[&[u8]]) -> Result<SendSignalCommand, Fault> {
        let names = ["target_invocation_id=", "signal=", "result="];
        let (target_invocation_id, (signal, (result, ()))) = values_of::<
            (Text, (Signal, (SignalResult, ()))),
        >(alloc, words, &names)?;
        Ok(SendSignalCommand {
            target_invocation_id,
            signal,
            result,
        })
    }
}

impl Form for PromiseCommand {
    ghost fields = { promise_fields };

    fn print(&self, line: &mut Line, is_first: bool) -> Result<bool, AllocError> {
        let is_first = print_field(line, is_first, "key", &self.key)?;
        print_field(
            line,
            is_first,
            "result_completion_id",
            &self.result_completion_id,
        )
    }

    fn read(alloc: Global, words: &[&[u8]]) -> Result<PromiseCommand, Fault> {
        let names = ["key=", "result_completion_id="];
        let (key, (result_completion_id, ())) = values_of::<(Text, (u32, ()))>(
            alloc, words, &names,
        )?;
        Ok(PromiseCommand {
            key,
            result_completion_id,
        })
    }
}

impl Form for CompletePromiseCommand {
    ghost fields = { complete_promise_fields };

    fn print(&self, line: &mut Line, is_first: bool) -> Result<bool, AllocError> {
        let is_first = print_field(line, is_first, "key", &self.key)?;
        let is_first = print_field(line, is_first, "completion", &self.completion)?;
        print_field(
            line,
            is_first,
            "result_completion_id",
            &self.result_completion_id,
        )
    }

    fn read(alloc: Global, words: &[&[u8]]) -> Result<CompletePromiseCommand, Fault> {
        let names = ["key=", "completion=", "result_completion_id="];
        let (key, (completion, (result_completion_id, ()))) = values_of::<
            (Text, (ValueOrFailure, (u32, ()))),
        >(alloc, words, &names)?;
        Ok(CompletePromiseCommand {
            key,
            completion,
            result_completion_id,
        })
    }
}

impl Form for RunCommand {
    ghost fields = { run_fields };

    fn print(&self, line: &mut Line, is_first: bool) -> Result<bool, AllocError> {
        let is_first = print_field(line, is_first, "name", &self.name)?;
        print_field(
            line,
            is_first,
            "result_completion_id",
            &self.result_completion_id,
        )
    }

    fn read(alloc: Global, words: &[&[u8]]) -> Result<RunCommand, Fault> {
        let names = ["name=", "result_completion_id="];
        let (name, (result_completion_id, ())) = values_of::<(Text, (u32, ()))>(
            alloc, words, &names,
        )?;
        Ok(RunCommand {
            name,
            result_completion_id,
        })
    }
}

impl Form for InvocationCommand {
    ghost fields = { invocation_fields };

    fn print(&self, line: &mut Line, is_first: bool) -> Result<bool, AllocError> {
        let is_first = print_field(line, is_first, "target", &self.target)?;
        print_field(
            line,
            is_first,
            "result_completion_id",
            &self.result_completion_id,
        )
    }

    fn read(alloc: Global, words: &[&[u8]]) -> Result<InvocationCommand, Fault> {
        let names = ["target=", "result_completion_id="];
        let (target, (result_completion_id, ())) = values_of::<(InvocationTarget, (u32, ()))>(
            alloc, words, &names,
        )?;
        Ok(InvocationCommand {
            target,
            result_completion_id,
        })
    }
}
